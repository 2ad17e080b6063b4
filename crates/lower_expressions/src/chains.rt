ghost use Rattle.flow.specs.Limits.{node_limit};
ghost use Rattle.std.specs.Prelude.{IfOk, length, take, ◌≤◌, ◌+◌};
ghost use Rattle.c_syntax.specs.ExprTree as e;
ghost use Rattle.c_syntax.specs.Plain.{plain_expr, plain_links};
ghost use Rattle.lower_relation.specs.Expressions.{LinksDo, emitted_expression};
ghost use Rattle.lower_relation.specs.Values.{NullOr};
ghost use Rattle.lower_relation.specs.Room.{branch_visits, expr_room, links_room};
ghost use Rattle.lower_nodes.specs.Made.{Made, MadeFor};
ghost use Rattle.lower_nodes.specs.Parts.{purpose_part};
ghost use Rattle.lower_operators.specs.Linking.{link_part};
ghost use Rattle.lower_expressions.specs.Truths.{chain_value};
ghost use Rattle.lower_facts.specs.Facts.{facts_in, sites_in};

use crate::expressions::emit_value;
use crate::truths::emit_chain_truth;
use c_meaning::{ValueType, operation_of};
use c_syntax::{Expr, Link};
use c_types_expressions::binary_of;
use cbi_base::Memory;
use flow::Node;
use lower_facts::TreeFacts;
use lower_nodes::{Graph, Purpose, put_flagged, put_operation, put_stuck, put_taken};
use lower_operators::{begins_null, put_shortcut, type_before};
use lower_trees::{Joint, is_null_beside, joint_by, operand_type};

/// The value, or a null pointer in its place.
#[cycle(emission)]
#[tactic(auto, using(lower_nodes::proofs::Building::parts_made))]
pub fn emit_null_or(
    graph: &mut Graph,
    facts: &TreeFacts,
    is_null: bool,
    x: &Expr,
    next: u32,
) -> Result<u32, Memory>
    requires room { length graph.old + (1 + expr_room (sites_in facts.now) (plain_expr x.now)) ≤ node_limit }
    ensures made { IfOk result (λ i. Made (λ G. NullOr G is_null (emitted_expression G (facts_in facts.now) (sites_in facts.now) (plain_expr x.now)))
        graph.old graph.new i next) }
    ensures few { IfOk result (λ i. length graph.new ≤ length graph.old + (1 + expr_room (sites_in facts.now) (plain_expr x.now))) }
{
    if is_null {
        let i = graph.put(Node::Null { next })?;
        return Ok(i);
    }
    let i = emit_value(graph, facts, x, next)?;
    Ok(i)
}

/// An operator of a chain, with its right side, where the left side has the type.
#[cycle(emission)]
pub fn emit_link(
    graph: &mut Graph,
    facts: &TreeFacts,
    left: Option<ValueType>,
    link: &Link,
    next: u32,
) -> Result<u32, Memory>
    requires room { length graph.old + (7 + branch_visits (sites_in facts.now) link.now.token
        + expr_room (sites_in facts.now) (plain_expr link.now.operand)) ≤ node_limit }
    ensures made { IfOk result (λ i. Made (link_part (facts_in facts.now) (sites_in facts.now) left link.now.token link.now.sign
        (plain_expr link.now.operand)) graph.old graph.new i next) }
    ensures few { IfOk result (λ i. length graph.new ≤ length graph.old
        + (7 + branch_visits (sites_in facts.now) link.now.token + expr_room (sites_in facts.now) (plain_expr link.now.operand))) }
{
    let binary = binary_of(link.sign);
    let is_null = is_null_beside(binary, left, &link.operand);
    match joint_by(link.sign) {
        Joint::Both => {
            let flagged = put_flagged(graph, next)?;
            let right = emit_null_or(graph, facts, is_null, &link.operand, flagged)?;
            let i = put_shortcut(graph, facts, true, link.token, right, next)?;
            Ok(i)
        }
        Joint::Either => {
            let flagged = put_flagged(graph, next)?;
            let right = emit_null_or(graph, facts, is_null, &link.operand, flagged)?;
            let i = put_shortcut(graph, facts, false, link.token, right, next)?;
            Ok(i)
        }
        Joint::Computes { op } => {
            let own = facts.type_of(&link.operand);
            let right = operand_type(is_null, own);
            let operation = operation_of(op, left, right);
            let done = put_operation(graph, operation, next)?;
            let i = emit_null_or(graph, facts, is_null, &link.operand, done)?;
            Ok(i)
        }
        Joint::Unjoined => {
            let i = put_stuck(graph, next)?;
            Ok(i)
        }
    }
}

/// The operators of a chain behind its first operand, which has the type.
#[cycle(emission)]
pub fn emit_links(
    graph: &mut Graph,
    facts: &TreeFacts,
    left: Option<ValueType>,
    links: &[Link],
    next: u32,
) -> Result<u32, Memory>
    requires room { length graph.old + links_room (sites_in facts.now) (plain_links links.now) ≤ node_limit }
    ensures made { IfOk result (λ i. Made (λ G. LinksDo G (facts_in facts.now) (sites_in facts.now) left (plain_links links.now)) graph.old graph.new i next) }
    ensures few { IfOk result (λ i. length graph.new ≤ length graph.old + links_room (sites_in facts.now) (plain_links links.now)) }
{
    let mut entry = next;
    for place in (0..links.len()).rev() {
        let before = type_before(facts, left, links, place);
        entry = emit_link(graph, facts, before, &links[place], entry)?;
    }
    Ok(entry)
}

/// The value of what stands before the operator with this index, or of the whole.
#[cycle(emission)]
pub fn emit_before(
    graph: &mut Graph,
    facts: &TreeFacts,
    first: &Expr,
    links: &[Link],
    count: usize,
    next: u32,
) -> Result<u32, Memory>
    requires within { count ≤ length links.now }
    requires room { length graph.old + (1 + expr_room (sites_in facts.now) (plain_expr first.now)
        + links_room (sites_in facts.now) (plain_links (take count links.now))) ≤ node_limit }
    ensures made { IfOk result (λ i. Made (chain_value (facts_in facts.now) (sites_in facts.now) (plain_expr first.now) links.now count)
        graph.old graph.new i next) }
    ensures few { IfOk result (λ i. length graph.new ≤ length graph.old
        + (1 + expr_room (sites_in facts.now) (plain_expr first.now) + links_room (sites_in facts.now) (plain_links (take count links.now)))) }
{
    let is_null = begins_null(facts, first, links);
    let own = facts.type_of(first);
    let left = operand_type(is_null, own);
    let done = emit_links(graph, facts, left, &links[..count], next)?;
    let i = emit_null_or(graph, facts, is_null, first, done)?;
    Ok(i)
}

/// The operators of one level.
#[cycle(emission)]
pub fn emit_chain(
    graph: &mut Graph,
    facts: &TreeFacts,
    first: &Expr,
    links: &[Link],
    purpose: Purpose,
) -> Result<u32, Memory>
    requires room { length graph.old + expr_room (sites_in facts.now) (e.Chain 0 (plain_expr first.now) (plain_links links.now)) ≤ node_limit }
    ensures made { IfOk result (λ i. MadeFor
        (purpose_part (facts_in facts.now) (sites_in facts.now) (e.Chain 0 (plain_expr first.now) (plain_links links.now))) graph.old graph.new i purpose) }
    ensures few { IfOk result (λ i. length graph.new ≤ length graph.old
        + expr_room (sites_in facts.now) (e.Chain 0 (plain_expr first.now) (plain_links links.now))) }
{
    match purpose {
        Purpose::Truth { yes, no } => {
            let i = emit_chain_truth(graph, facts, first, links, yes, no)?;
            Ok(i)
        }
        _ => {
            let after = put_taken(graph, purpose)?;
            let i = emit_before(graph, facts, first, links, links.len(), after)?;
            Ok(i)
        }
    }
}
