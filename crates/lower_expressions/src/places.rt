ghost use Rattle.flow.specs.Limits.{node_limit};
ghost use Rattle.std.specs.Prelude.{◌≡◌, IfOk, true, ℕ, length, ◌≤◌, ◌+◌};
ghost use Rattle.c_syntax.specs.ExprTree as e;
ghost use Rattle.c_syntax.specs.Plain.{plain_expr, plain_exprs};
ghost use Rattle.lower_relation.specs.Room.{expr_room, exprs_room};
ghost use Rattle.lower_nodes.specs.Made.{Made};
ghost use Rattle.lower_nodes.specs.Parts.{place_part};
ghost use Rattle.lower_operators.specs.Spots.{is_nowhere};
ghost use Rattle.lower_facts.specs.Facts.{facts_in, sites_in};

use crate::expressions::emit_value;
use crate::postfix::emit_postfix_place;
use c_syntax::{Expr, PrefixOperator};
use cbi_base::Memory;
use lower_facts::TreeFacts;
use lower_nodes::{Graph, put_pointed, put_stuck, put_variable};

/// No run of a checked text comes to the place of an expression that is a value by its form.
fn put_nowhere(graph: &mut Graph, facts: &TreeFacts, x: &Expr, next: u32) -> Result<u32, Memory>
    requires room { length graph.old + expr_room (sites_in facts.now) (plain_expr x.now) ≤ node_limit }
    requires given { is_nowhere (plain_expr x.now) ≡ true }
    ensures made { IfOk result (λ i. Made (place_part (facts_in facts.now) (sites_in facts.now) (plain_expr x.now)) graph.old graph.new i next) }
    ensures few { IfOk result (λ i. length graph.new ≤ length graph.old + expr_room (sites_in facts.now) (plain_expr x.now)) }
{
    let i = put_stuck(graph, next)?;
    Ok(i)
}

/// The place that an expression finds.
#[cycle(emission)]
pub fn emit_place(graph: &mut Graph, facts: &TreeFacts, x: &Expr, next: u32) -> Result<u32, Memory>
    requires room { length graph.old + expr_room (sites_in facts.now) (plain_expr x.now) ≤ node_limit }
    ensures made { IfOk result (λ i. Made (place_part (facts_in facts.now) (sites_in facts.now) (plain_expr x.now)) graph.old graph.new i next) }
    ensures few { IfOk result (λ i. length graph.new ≤ length graph.old + expr_room (sites_in facts.now) (plain_expr x.now)) }
{
    match x {
        Expr::Name { token, .. } => put_variable(graph, facts.slot_at(*token), next),
        Expr::Paren { inner, .. } => emit_place(graph, facts, inner, next),
        Expr::Postfix { primary, operators } => {
            emit_postfix_place(graph, facts, primary, operators.as_slice(), next)
        }
        Expr::Prefix {
            operator,
            operand,
            ..
        } => {
            let i = emit_prefix_place(graph, facts, *operator, operand, next)?;
            Ok(i)
        }
        Expr::Comma { operands, .. } => {
            let i = emit_lone_place(graph, facts, operands.as_slice(), next)?;
            Ok(i)
        }
        Expr::Assign { .. } | Expr::Conditional { .. } | Expr::Chain { .. } => {
            put_nowhere(graph, facts, x, next)
        }
        Expr::Cast { .. } | Expr::SizeOfType { .. } | Expr::Call { .. } => {
            put_nowhere(graph, facts, x, next)
        }
        Expr::Constant { .. } | Expr::Strings { .. } => put_nowhere(graph, facts, x, next),
        Expr::Null { .. } | Expr::EndOfFile { .. } => put_nowhere(graph, facts, x, next),
    }
}

/// The place that a pointer's value is.
#[cycle(emission)]
pub fn emit_prefix_place(
    graph: &mut Graph,
    facts: &TreeFacts,
    operator: PrefixOperator,
    operand: &Expr,
    next: u32,
) -> Result<u32, Memory>
    requires room { length graph.old + (3 + expr_room (sites_in facts.now) (plain_expr operand.now)) ≤ node_limit }
    ensures made { IfOk result (λ i. (token : ℕ)
        → Made (place_part (facts_in facts.now) (sites_in facts.now) (e.Prefix token operator (plain_expr operand.now))) graph.old graph.new i next) }
    ensures few { IfOk result (λ i. length graph.new ≤ length graph.old + (3 + expr_room (sites_in facts.now) (plain_expr operand.now))) }
{
    match operator {
        PrefixOperator::Indirection => {
            let pointed = put_pointed(graph, next)?;
            let i = emit_value(graph, facts, operand, pointed)?;
            Ok(i)
        }
        _ => {
            let i = put_stuck(graph, next)?;
            Ok(i)
        }
    }
}

/// The place of one operand alone. Of several, the value isn't a place.
#[cycle(emission)]
pub fn emit_lone_place(
    graph: &mut Graph,
    facts: &TreeFacts,
    operands: &[Expr],
    next: u32,
) -> Result<u32, Memory>
    requires room { length graph.old + (3 + exprs_room (sites_in facts.now) 0 (plain_exprs operands.now)) ≤ node_limit }
    ensures made { IfOk result (λ i. (token : ℕ)
        → Made (place_part (facts_in facts.now) (sites_in facts.now) (e.Comma token (plain_exprs operands.now))) graph.old graph.new i next) }
    ensures few { IfOk result (λ i. length graph.new ≤ length graph.old + (3 + exprs_room (sites_in facts.now) 0 (plain_exprs operands.now))) }
{
    if operands.len() == 1 {
        let i = emit_place(graph, facts, &operands[0], next)?;
        return Ok(i);
    }
    let i = put_stuck(graph, next)?;
    Ok(i)
}
