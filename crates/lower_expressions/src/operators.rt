ghost use Rattle.flow.specs.Limits.{node_limit};
ghost use Rattle.std.specs.Prelude.{IfOk, length, ◌≤◌, ◌+◌};
ghost use Rattle.cbi_base.specs.declared.operators.Unary.TheVariants as unary;
ghost use Rattle.c_syntax.specs.ExprTree as e;
ghost use Rattle.c_syntax.specs.Plain.{plain_expr};
ghost use Rattle.c_meaning.specs.Trees.{type_of};
ghost use Rattle.lower_relation.specs.Expressions.{emitted_expression};
ghost use Rattle.lower_relation.specs.Operators.{Negated};
ghost use Rattle.lower_relation.specs.Paths.{◌then◌, Does};
ghost use Rattle.flow.specs.declared.node.Node.TheVariants as node;
ghost use Rattle.lower_relation.specs.Room.{expr_room, pair_visits};
ghost use Rattle.lower_nodes.specs.Made.{Made, MadeFor};
ghost use Rattle.lower_nodes.specs.Parts.{purpose_part};
ghost use Rattle.lower_nodes.specs.Prefixes.{PrefixValue};
ghost use Rattle.lower_nodes.specs.Purposes.{Serves};
ghost use Rattle.lower_facts.specs.Facts.{facts_in, sites_in};

use crate::expressions::{emit, emit_value, emit_wanted};
use crate::places::emit_place;
use c_meaning::{ValueType, operation_of};
use c_syntax::{Expr, PrefixOperator, Sign};
use cbi_base::{Memory, Unary};
use flow::Node;
use lower_facts::TreeFacts;
use lower_nodes::{
    Graph, Purpose, put_assigned, put_changed, put_handed, put_size, put_stepped, put_stuck,
    put_taken, put_taken_through,
};
use lower_operators::put_sole;
use lower_trees::{Assignment, assignment_by, token_of};

/// An assignment finds its place, then its value, which is converted and stored.
#[cycle(emission)]
pub fn emit_assign(
    graph: &mut Graph,
    facts: &TreeFacts,
    token: u32,
    sign: Sign,
    target: &Expr,
    value: &Expr,
    purpose: Purpose,
) -> Result<u32, Memory>
    requires room { length graph.old + expr_room (sites_in facts.now) (e.Assign token sign (plain_expr target.now) (plain_expr value.now)) ≤ node_limit }
    ensures made { IfOk result (λ i. MadeFor
        (purpose_part (facts_in facts.now) (sites_in facts.now) (e.Assign token sign (plain_expr target.now) (plain_expr value.now)))
        graph.old graph.new i purpose) }
    ensures few { IfOk result (λ i. length graph.new ≤ length graph.old
        + expr_room (sites_in facts.now) (e.Assign token sign (plain_expr target.now) (plain_expr value.now))) }
{
    let left = facts.type_of(target);
    let right = facts.type_of(value);
    let after = put_taken(graph, purpose)?;
    match assignment_by(sign) {
        Assignment::Plain => {
            let stored = put_assigned(graph, facts, token, after)?;
            let found = emit_wanted(graph, facts, left, value, stored)?;
            let i = emit_place(graph, facts, target, found)?;
            Ok(i)
        }
        Assignment::By { op } => {
            let operation = operation_of(op, left, right);
            let changed = put_changed(graph, facts, token, left, operation, after)?;
            let found = emit_value(graph, facts, value, changed)?;
            let i = emit_place(graph, facts, target, found)?;
            Ok(i)
        }
    }
}

/// The value of an operator before an operand.
#[cycle(emission)]
#[tactic(auto, using(lower_nodes::proofs::Building::parts_made))]
pub fn emit_prefix_value(
    graph: &mut Graph,
    facts: &TreeFacts,
    token: u32,
    operator: PrefixOperator,
    operand: &Expr,
    next: u32,
) -> Result<u32, Memory>
    requires room { length graph.old + (13 + pair_visits (sites_in facts.now) token + expr_room (sites_in facts.now) (plain_expr operand.now)) ≤ node_limit }
    ensures made { IfOk result (λ i. Made (λ G. PrefixValue G (facts_in facts.now) (sites_in facts.now) token operator
        (type_of (facts_in facts.now) (plain_expr operand.now)) (emitted_expression G (facts_in facts.now) (sites_in facts.now) (plain_expr operand.now)))
        graph.old graph.new i next) }
    ensures few { IfOk result (λ i. length graph.new ≤ length graph.old
        + (13 + pair_visits (sites_in facts.now) token + expr_room (sites_in facts.now) (plain_expr operand.now))) }
{
    let of = facts.type_of(operand);
    match operator {
        PrefixOperator::Increment => {
            let stepped = put_stepped(graph, facts, true, token, of, next)?;
            let i = emit_place(graph, facts, operand, stepped)?;
            Ok(i)
        }
        PrefixOperator::Decrement => {
            let stepped = put_stepped(graph, facts, false, token, of, next)?;
            let i = emit_place(graph, facts, operand, stepped)?;
            Ok(i)
        }
        PrefixOperator::Address => {
            let i = emit_place(graph, facts, operand, next)?;
            Ok(i)
        }
        PrefixOperator::Plus => {
            let want = facts.type_at(token);
            let handed = put_handed(graph, want, next)?;
            let i = emit_value(graph, facts, operand, handed)?;
            Ok(i)
        }
        PrefixOperator::Minus => {
            let sole = put_sole(graph, facts, token, of, Unary::Neg, next)?;
            let i = emit_value(graph, facts, operand, sole)?;
            Ok(i)
        }
        PrefixOperator::Complement => {
            let sole = put_sole(graph, facts, token, of, Unary::Com, next)?;
            let i = emit_value(graph, facts, operand, sole)?;
            Ok(i)
        }
        _ => {
            let i = put_stuck(graph, next)?;
            Ok(i)
        }
    }
}

/// 1 where the operand is false, else 0.
#[cycle(emission)]
#[tactic(auto, using(lower_nodes::proofs::Building::parts_made))]
fn emit_negation(
    graph: &mut Graph,
    facts: &TreeFacts,
    operand: &Expr,
    next: u32,
) -> Result<u32, Memory>
    requires room { length graph.old + (1 + expr_room (sites_in facts.now) (plain_expr operand.now)) ≤ node_limit }
    ensures made { IfOk result (λ i. Made (λ G. (emitted_expression G (facts_in facts.now) (sites_in facts.now) (plain_expr operand.now)).value then Does G
        (node.Sole unary.Not 0)) graph.old graph.new i next) }
    ensures few { IfOk result (λ i. length graph.new ≤ length graph.old + (1 + expr_room (sites_in facts.now) (plain_expr operand.now))) }
{
    let sole = graph.put(Node::Sole {
        op: Unary::Not,
        next,
    })?;
    let i = emit_value(graph, facts, operand, sole)?;
    Ok(i)
}

/// The negation of the operand, or its truth, the other way round.
#[cycle(emission)]
pub fn emit_not(
    graph: &mut Graph,
    facts: &TreeFacts,
    operand: &Expr,
    purpose: Purpose,
) -> Result<u32, Memory>
    requires room { length graph.old + (2 + expr_room (sites_in facts.now) (plain_expr operand.now)) ≤ node_limit }
    ensures made { IfOk result (λ i. MadeFor
        (λ G. Serves (Negated G (facts_in facts.now) (sites_in facts.now)
        (emitted_expression G (facts_in facts.now) (sites_in facts.now) (plain_expr operand.now)))) graph.old graph.new i purpose) }
    ensures few { IfOk result (λ i. length graph.new ≤ length graph.old + (2 + expr_room (sites_in facts.now) (plain_expr operand.now))) }
{
    match purpose {
        Purpose::Truth { yes, no } => {
            let i = emit(graph, facts, operand, Purpose::Truth { yes: no, no: yes })?;
            Ok(i)
        }
        _ => {
            let after = put_taken(graph, purpose)?;
            let i = emit_negation(graph, facts, operand, after)?;
            Ok(i)
        }
    }
}

/// An operator before an operand.
#[cycle(emission)]
pub fn emit_prefix(
    graph: &mut Graph,
    facts: &TreeFacts,
    token: u32,
    operator: PrefixOperator,
    operand: &Expr,
    purpose: Purpose,
) -> Result<u32, Memory>
    requires room { length graph.old + expr_room (sites_in facts.now) (e.Prefix token operator (plain_expr operand.now)) ≤ node_limit }
    ensures made { IfOk result (λ i. MadeFor (purpose_part (facts_in facts.now) (sites_in facts.now) (e.Prefix token operator (plain_expr operand.now)))
        graph.old graph.new i purpose) }
    ensures few { IfOk result (λ i. length graph.new ≤ length graph.old + expr_room (sites_in facts.now) (e.Prefix token operator (plain_expr operand.now))) }
{
    match operator {
        PrefixOperator::SizeOf => {
            let cells = facts.cells_at(token_of(operand));
            let i = put_size(graph, cells, purpose)?;
            Ok(i)
        }
        PrefixOperator::Indirection => {
            let of = facts.type_at(token);
            let through = put_taken_through(graph, of, purpose)?;
            let i = emit_value(graph, facts, operand, through)?;
            Ok(i)
        }
        PrefixOperator::Not => {
            let i = emit_not(graph, facts, operand, purpose)?;
            Ok(i)
        }
        _ => {
            let after = put_taken(graph, purpose)?;
            let i = emit_prefix_value(graph, facts, token, operator, operand, after)?;
            Ok(i)
        }
    }
}
