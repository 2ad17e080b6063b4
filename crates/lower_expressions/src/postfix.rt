ghost use Rattle.flow.specs.Limits.{node_limit};
ghost use Rattle.std.specs.Prelude.{IfOk, length, ◌≤◌, ◌+◌};
ghost use Rattle.c_syntax.specs.ExprTree as e;
ghost use Rattle.c_syntax.specs.Words.{PostfixList, plain_expr, plain_operators, plain_postfix};
ghost use Rattle.lower_relation.specs.Expressions.{PostfixOperatorsDo, emitted_expression};
ghost use Rattle.lower_relation.specs.Operators.{PlaceOrValue};
ghost use Rattle.lower_relation.specs.Room.{expr_room, postfix_room};
ghost use Rattle.lower_nodes.specs.Made.{Made, MadeFor};
ghost use Rattle.lower_nodes.specs.Parts.{place_part, purpose_part};
ghost use Rattle.lower_operators.specs.Spots.{first_part, spots_part};
ghost use Rattle.lower_facts.specs.Facts.{facts_in, sites_in};

use crate::expressions::emit_value;
use crate::places::emit_place;
use c_meaning::{ValueType, operation_of};
use c_syntax::{Expr, PostfixOperator};
use cbi_base::{Binary, Memory};
use lower_facts::TreeFacts;
use lower_nodes::{
    Graph, Purpose, put_member, put_operation, put_stuck, put_taken, put_taken_place,
};
use lower_operators::{
    is_taken, is_used, place_before, put_settled, put_stepped_place, type_behind,
};
use lower_trees::{ends_as_place, is_place, postfix_token, token_of};

/// An operator behind an operand.
#[cycle(emission)]
pub fn emit_operator(
    graph: &mut Graph,
    facts: &TreeFacts,
    taken: bool,
    known: bool,
    of: Option<ValueType>,
    operator: &PostfixOperator,
    next: u32,
) -> Result<u32, Memory>
    requires room { length graph.old + postfix_room (sites_in facts.now) (plain_postfix operator.now e.no_postfix) ≤ node_limit }
    ensures made { IfOk result (λ i. (rest : PostfixList)
        → Made (first_part (facts_in facts.now) (sites_in facts.now) taken known of (plain_postfix operator.now rest)) graph.old graph.new i next) }
    ensures few { IfOk result (λ i. length graph.new ≤ length graph.old + postfix_room (sites_in facts.now) (plain_postfix operator.now e.no_postfix)) }
{
    match operator {
        PostfixOperator::Index { index, .. } => {
            let right = facts.type_of(index);
            let operation = operation_of(Binary::Add, of, right);
            let added = put_operation(graph, operation, next)?;
            let found = emit_value(graph, facts, index, added)?;
            let i = put_settled(graph, known, of, found)?;
            Ok(i)
        }
        PostfixOperator::Member { token, .. } => {
            let offset = facts.offset_at(*token);
            let i = put_member(graph, offset, next)?;
            Ok(i)
        }
        PostfixOperator::Arrow { token, .. } => {
            let distance = facts.offset_at(*token);
            let member = put_member(graph, distance, next)?;
            let i = put_settled(graph, known, of, member)?;
            Ok(i)
        }
        PostfixOperator::Increment { token } => {
            let i = put_stepped_place(graph, facts, taken, known, true, *token, of, next)?;
            Ok(i)
        }
        PostfixOperator::Decrement { token } => {
            let i = put_stepped_place(graph, facts, taken, known, false, *token, of, next)?;
            Ok(i)
        }
    }
}

/// The operators behind an operand. `taken` says whether something takes the value of the last one.
#[cycle(emission)]
pub fn emit_behind(
    graph: &mut Graph,
    facts: &TreeFacts,
    taken: bool,
    known: bool,
    of: Option<ValueType>,
    operators: &[PostfixOperator],
    next: u32,
) -> Result<u32, Memory>
    requires room { length graph.old + postfix_room (sites_in facts.now) (plain_operators operators.now) ≤ node_limit }
    ensures made { IfOk result (λ i. Made (λ G. PostfixOperatorsDo G (facts_in facts.now) (sites_in facts.now) taken known of (plain_operators operators.now))
        graph.old graph.new i next) }
    ensures few { IfOk result (λ i. length graph.new ≤ length graph.old + postfix_room (sites_in facts.now) (plain_operators operators.now)) }
{
    let mut entry = next;
    for place in (0..operators.len()).rev() {
        let here = is_used(taken, operators, place);
        let placed = place_before(known, operators, place);
        let before = type_behind(facts, of, operators, place);
        entry = emit_operator(graph, facts, here, placed, before, &operators[place], entry)?;
    }
    Ok(entry)
}

/// A place where the expression is one, and else its value.
#[cycle(emission)]
#[tactic(auto, using(lower_nodes::proofs::Building::parts_made))]
pub fn emit_spot(
    graph: &mut Graph,
    facts: &TreeFacts,
    known: bool,
    x: &Expr,
    next: u32,
) -> Result<u32, Memory>
    requires room { length graph.old + expr_room (sites_in facts.now) (plain_expr x.now) ≤ node_limit }
    ensures made { IfOk result (λ i. Made (λ G. PlaceOrValue G known (emitted_expression G (facts_in facts.now) (sites_in facts.now) (plain_expr x.now)))
        graph.old graph.new i next) }
    ensures few { IfOk result (λ i. length graph.new ≤ length graph.old + expr_room (sites_in facts.now) (plain_expr x.now)) }
{
    if known {
        let i = emit_place(graph, facts, x, next)?;
        return Ok(i);
    }
    let i = emit_value(graph, facts, x, next)?;
    Ok(i)
}

/// An operand, and the operators behind it.
#[cycle(emission)]
pub fn emit_spots(
    graph: &mut Graph,
    facts: &TreeFacts,
    taken: bool,
    primary: &Expr,
    operators: &[PostfixOperator],
    next: u32,
) -> Result<u32, Memory>
    requires room { length graph.old + (expr_room (sites_in facts.now) (plain_expr primary.now)
        + postfix_room (sites_in facts.now) (plain_operators operators.now)) ≤ node_limit }
    ensures made { IfOk result (λ i. Made (spots_part (facts_in facts.now) (sites_in facts.now) taken (plain_expr primary.now)
        (plain_operators operators.now)) graph.old graph.new i next) }
    ensures few { IfOk result (λ i. length graph.new ≤ length graph.old
        + (expr_room (sites_in facts.now) (plain_expr primary.now) + postfix_room (sites_in facts.now) (plain_operators operators.now))) }
{
    let known = is_place(primary);
    let of = facts.type_of(primary);
    let done = emit_behind(graph, facts, taken, known, of, operators, next)?;
    let i = emit_spot(graph, facts, known, primary, done)?;
    Ok(i)
}

/// What postfix operators lead to.
#[cycle(emission)]
pub fn emit_postfix(
    graph: &mut Graph,
    facts: &TreeFacts,
    primary: &Expr,
    operators: &[PostfixOperator],
    purpose: Purpose,
) -> Result<u32, Memory>
    requires room { length graph.old + expr_room (sites_in facts.now) (e.Postfix (plain_expr primary.now) (plain_operators operators.now)) ≤ node_limit }
    ensures made { IfOk result (λ i. MadeFor
        (purpose_part (facts_in facts.now) (sites_in facts.now) (e.Postfix (plain_expr primary.now) (plain_operators operators.now)))
        graph.old graph.new i purpose) }
    ensures few { IfOk result (λ i. length graph.new ≤ length graph.old
        + expr_room (sites_in facts.now) (e.Postfix (plain_expr primary.now) (plain_operators operators.now))) }
{
    let known = is_place(primary);
    if ends_as_place(known, operators) {
        let first = token_of(primary);
        let token = postfix_token(first, operators);
        let whole = facts.type_at(token);
        let after = put_taken_place(graph, whole, purpose)?;
        let i = emit_spots(graph, facts, true, primary, operators, after)?;
        return Ok(i);
    }
    let after = put_taken(graph, purpose)?;
    let taken = is_taken(purpose);
    let i = emit_spots(graph, facts, taken, primary, operators, after)?;
    Ok(i)
}

/// The place that postfix operators lead to.
#[cycle(emission)]
pub fn emit_postfix_place(
    graph: &mut Graph,
    facts: &TreeFacts,
    primary: &Expr,
    operators: &[PostfixOperator],
    next: u32,
) -> Result<u32, Memory>
    requires room { length graph.old + expr_room (sites_in facts.now) (e.Postfix (plain_expr primary.now) (plain_operators operators.now)) ≤ node_limit }
    ensures made { IfOk result (λ i. Made (place_part (facts_in facts.now) (sites_in facts.now)
        (e.Postfix (plain_expr primary.now) (plain_operators operators.now))) graph.old graph.new i next) }
    ensures few { IfOk result (λ i. length graph.new ≤ length graph.old
        + expr_room (sites_in facts.now) (e.Postfix (plain_expr primary.now) (plain_operators operators.now))) }
{
    let known = is_place(primary);
    if ends_as_place(known, operators) {
        let i = emit_spots(graph, facts, true, primary, operators, next)?;
        return Ok(i);
    }
    let i = put_stuck(graph, next)?;
    Ok(i)
}
