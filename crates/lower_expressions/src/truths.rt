ghost use Rattle.flow.specs.Limits.{node_limit};
ghost use Rattle.std.specs.Prelude.{◌≡◌, IfOk, false, length, take, get_or, ◌<◌, ◌≤◌, ◌+◌};
ghost use Rattle.c_syntax.specs.ExprTree as e;
ghost use Rattle.c_syntax.specs.Plain.{plain_expr, plain_links};
ghost use Rattle.c_meaning.specs.Trees.{joint_of_sign};
ghost use Rattle.lower_relation.specs.Expressions.{emitted_expression};
ghost use Rattle.lower_relation.specs.Values.{NullTruth};
ghost use Rattle.lower_relation.specs.Room.{expr_room, links_room};
ghost use Rattle.lower_nodes.specs.Made.{MadeFor, MadeWays};
ghost use Rattle.lower_nodes.specs.Parts.{purpose_part};
ghost use Rattle.lower_nodes.specs.Purposes.{condition_ways};
ghost use Rattle.lower_nodes.specs.declared.purpose.Purpose.TheVariants as purpose;
ghost use Rattle.lower_operators.specs.Forking.{forks_at};
ghost use Rattle.lower_operators.specs.Linking.{type_before};
ghost use Rattle.lower_expressions.specs.Truths.{begins_as, chain_truth, right_truth};
ghost use Rattle.lower_facts.specs.Facts.{facts_in, sites_in};

use crate::chains::emit_before;
use crate::expressions::emit;
use c_syntax::{Expr, Link};
use c_types_expressions::binary_of;
use cbi_base::Memory;
use flow::Node;
use lower_facts::TreeFacts;
use lower_nodes::{Graph, Purpose, put_decided};
use lower_operators::{begins_null, forks_at, is_short, no_before, type_before, yes_before};
use lower_trees::{is_null_beside, operand_type};

/// The truth of an operand, or of a null pointer in its place.
#[cycle(emission)]
#[tactic(auto, using(crate::proofs::Forked::null_truths))]
pub fn emit_null_truth(
    graph: &mut Graph,
    facts: &TreeFacts,
    is_null: bool,
    x: &Expr,
    yes: u32,
    no: u32,
) -> Result<u32, Memory>
    requires room { length graph.old + (2 + expr_room (sites_in facts.now) (plain_expr x.now)) ≤ node_limit }
    ensures made { IfOk result (λ i. MadeWays (λ G. NullTruth G is_null (emitted_expression G (facts_in facts.now) (sites_in facts.now) (plain_expr x.now)))
        graph.old graph.new i (condition_ways yes no)) }
    ensures few { IfOk result (λ i. length graph.new ≤ length graph.old + (2 + expr_room (sites_in facts.now) (plain_expr x.now))) }
{
    if is_null {
        let fork = graph.put(Node::Fork { yes, no })?;
        let i = graph.put(Node::Null { next: fork })?;
        return Ok(i);
    }
    let i = emit(graph, facts, x, Purpose::Truth { yes, no })?;
    Ok(i)
}

/// The truth of the right side of the operator with this index.
#[cycle(emission)]
fn emit_right_truth(
    graph: &mut Graph,
    facts: &TreeFacts,
    first: &Expr,
    links: &[Link],
    link: &Link,
    place: usize,
    yes: u32,
    no: u32,
) -> Result<u32, Memory>
    requires within { place < length links.now }
    requires room { length graph.old + (2 + expr_room (sites_in facts.now) (plain_expr link.now.operand)) ≤ node_limit }
    ensures made { IfOk result (λ i. MadeWays
        (λ G. right_truth (facts_in facts.now) (sites_in facts.now) G
        (type_before (facts_in facts.now) (begins_as (facts_in facts.now) (sites_in facts.now) (plain_expr first.now) links.now) links.now place)
        link.now) graph.old graph.new i (condition_ways yes no)) }
    ensures few { IfOk result (λ i. length graph.new ≤ length graph.old + (2 + expr_room (sites_in facts.now) (plain_expr link.now.operand))) }
{
    let begins = begins_null(facts, first, links);
    let own = facts.type_of(first);
    let start = operand_type(begins, own);
    let left = type_before(facts, start, links, place);
    let op = binary_of(link.sign);
    let is_null = is_null_beside(op, left, &link.operand);
    let i = emit_null_truth(graph, facts, is_null, &link.operand, yes, no)?;
    Ok(i)
}

/// The truth of what stands before the operator behind this one, which needs the value of its left side.
#[cycle(emission)]
fn emit_valued_truth(
    graph: &mut Graph,
    facts: &TreeFacts,
    first: &Expr,
    links: &[Link],
    link: &Link,
    place: usize,
    yes: u32,
    no: u32,
) -> Result<u32, Memory>
    requires within { place < length links.now }
    requires here { link.now ≡ get_or links.now place link.now }
    requires valued { forks_at ((sites_in facts.now).branch_at link.now.token) (joint_of_sign link.now.sign) ≡ false }
    requires room { length graph.old + (2 + expr_room (sites_in facts.now) (plain_expr first.now)
        + links_room (sites_in facts.now) (plain_links (take (place + 1) links.now))) ≤ node_limit }
    ensures made { IfOk result (λ i. MadeWays (chain_truth (facts_in facts.now) (sites_in facts.now) (plain_expr first.now) links.now (place + 1))
        graph.old graph.new i (condition_ways yes no)) }
    ensures few { IfOk result (λ i. length graph.new ≤ length graph.old
        + (2 + expr_room (sites_in facts.now) (plain_expr first.now) + links_room (sites_in facts.now) (plain_links (take (place + 1) links.now)))) }
{
    if !is_short(link.sign) {
        let fork = graph.put(Node::Fork { yes, no })?;
        let i = emit_before(graph, facts, first, links, place + 1, fork)?;
        return Ok(i);
    }
    let right = emit_right_truth(graph, facts, first, links, link, place, yes, no)?;
    let left_yes = yes_before(link.sign, right, yes);
    let left_no = no_before(link.sign, right, no);
    let decided = put_decided(graph, facts, link.token, left_yes, left_no)?;
    let i = emit_before(graph, facts, first, links, place, decided)?;
    Ok(i)
}

/// The truth of a chain, from the last operator to the first: `&&` and `||` without a site need no value of what stands before them.
#[cycle(emission)]
pub fn emit_chain_truth(
    graph: &mut Graph,
    facts: &TreeFacts,
    first: &Expr,
    links: &[Link],
    yes: u32,
    no: u32,
) -> Result<u32, Memory>
    requires room { length graph.old + expr_room (sites_in facts.now) (e.Chain 0 (plain_expr first.now) (plain_links links.now)) ≤ node_limit }
    ensures made { IfOk result (λ i. MadeFor
        (purpose_part (facts_in facts.now) (sites_in facts.now) (e.Chain 0 (plain_expr first.now) (plain_links links.now))) graph.old graph.new i
        (purpose.Truth yes no)) }
    ensures few { IfOk result (λ i. length graph.new ≤ length graph.old
        + expr_room (sites_in facts.now) (e.Chain 0 (plain_expr first.now) (plain_links links.now))) }
{
    let begins = begins_null(facts, first, links);
    let mut yes_at = yes;
    let mut no_at = no;
    for place in (0..links.len()).rev() {
        let link = &links[place];
        if !forks_at(facts, link) {
            let i = emit_valued_truth(graph, facts, first, links, link, place, yes_at, no_at)?;
            return Ok(i);
        }
        let right = emit_right_truth(graph, facts, first, links, link, place, yes_at, no_at)?;
        let left_yes = yes_before(link.sign, right, yes_at);
        let left_no = no_before(link.sign, right, no_at);
        yes_at = left_yes;
        no_at = left_no;
    }
    let i = emit_null_truth(graph, facts, begins, first, yes_at, no_at)?;
    Ok(i)
}
