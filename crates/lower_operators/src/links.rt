ghost use Rattle.flow.specs.Limits.{node_limit};
ghost use Rattle.std.specs.Prelude.{◌≡◌, ◌<◌, IfOk, length, ◌≤◌, ◌+◌};
ghost use Rattle.c_syntax.specs.Plain.{plain_expr, plain_links};
ghost use Rattle.c_meaning.specs.Trees.{begins_null};
ghost use Rattle.lower_relation.specs.Room.{branch_visits};
ghost use Rattle.lower_nodes.specs.Ends.{Any};
ghost use Rattle.lower_nodes.specs.Made.{MadeTo};
ghost use Rattle.lower_operators.specs.Linking.{Shortcut, side_ends, shortcut_sides, type_before};
ghost use Rattle.lower_facts.specs.Facts.{facts_in, sites_in};

use c_meaning::ValueType;
use c_syntax::{Expr, Link};
use c_types_expressions::binary_of;
use cbi_base::{Kind, Memory};
use flow::Node;
use lower_facts::TreeFacts;
use lower_nodes::{Graph, put_decided};
use lower_trees::is_null_beside;

/// Whether the first operand of a chain is a null pointer because of the second one.
pub fn begins_null(facts: &TreeFacts, first: &Expr, links: &[Link]) -> bool
    ensures { result ≡ begins_null (facts_in facts.now) (plain_expr first.now) (plain_links links.now) }
{
    if links.len() == 0 {
        return false;
    }
    let link = &links[0];
    let op = binary_of(link.sign);
    let other = facts.type_of(&link.operand);
    is_null_beside(op, other, first)
}

/// The type of what stands before the operator with this index.
pub fn type_before(
    facts: &TreeFacts,
    left: Option<ValueType>,
    links: &[Link],
    place: usize,
) -> Option<ValueType>
    requires { place < length links.now }
    ensures { result ≡ type_before (facts_in facts.now) left links.now place }
{
    if place == 0 {
        return left;
    }
    let before = &links[place - 1];
    facts.type_at(before.token)
}

/// With `&&` a left value that is false makes the whole 0 at once, with `||` one that is true makes it 1. Else the right side follows.
pub fn put_shortcut(
    graph: &mut Graph,
    facts: &TreeFacts,
    is_both: bool,
    token: u32,
    right: u32,
    next: u32,
) -> Result<u32, Memory>
    requires room { length graph.old + (2 + branch_visits (sites_in facts.now) token) ≤ node_limit }
    ensures made { IfOk result (λ i. MadeTo side_ends Any (λ G. Shortcut G (facts_in facts.now) (sites_in facts.now) is_both token)
        graph.old graph.new i (shortcut_sides right next)) }
    ensures few { IfOk result (λ i. length graph.new ≤ length graph.old + (2 + branch_visits (sites_in facts.now) token)) }
{
    if is_both {
        let zero = graph.put(Node::Push {
            kind: Kind::Int,
            value: 0,
            next,
        })?;
        let i = put_decided(graph, facts, token, right, zero)?;
        return Ok(i);
    }
    let one = graph.put(Node::Push {
        kind: Kind::Int,
        value: 1,
        next,
    })?;
    let i = put_decided(graph, facts, token, one, right)?;
    Ok(i)
}
