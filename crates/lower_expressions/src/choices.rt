ghost use Rattle.flow.specs.Limits.{node_limit};
ghost use Rattle.std.specs.Prelude.{IfOk, length, ◌≤◌, ◌+◌};
ghost use Rattle.c_syntax.specs.ExprTree as e;
ghost use Rattle.c_syntax.specs.Plain.{plain_expr, plain_exprs};
ghost use Rattle.c_meaning.specs.Conversions.{is_null_as};
ghost use Rattle.lower_relation.specs.Expressions.{CommaDoes, emitted_expression};
ghost use Rattle.lower_relation.specs.Operators.{Cast};
ghost use Rattle.lower_relation.specs.Values.{HandedValue};
ghost use Rattle.lower_relation.specs.Room.{branch_visits, expr_room, exprs_room};
ghost use Rattle.lower_nodes.specs.Made.{Made, MadeFor};
ghost use Rattle.lower_nodes.specs.Parts.{purpose_part, value_part};
ghost use Rattle.lower_nodes.specs.Purposes.{Serves};
ghost use Rattle.lower_expressions.specs.Arms.{arm_effect_part, arm_value_part};
ghost use Rattle.lower_facts.specs.Facts.{facts_in, sites_in};

use crate::conditions::emit_condition;
use crate::expressions::{emit, emit_value};
use c_meaning::ValueType;
use c_syntax::Expr;
use cbi_base::Memory;
use flow::Node;
use lower_facts::TreeFacts;
use lower_nodes::{Graph, Purpose, put_arm, put_handed, put_stuck, put_taken};
use lower_operators::is_void;
use lower_trees::is_null_as;

/// The value, handed over as one of the type.
#[cycle(emission)]
#[tactic(auto, using(lower_nodes::proofs::Building::parts_made))]
pub fn emit_handed(
    graph: &mut Graph,
    facts: &TreeFacts,
    want: Option<ValueType>,
    x: &Expr,
    next: u32,
) -> Result<u32, Memory>
    requires room { length graph.old + (3 + expr_room (sites_in facts.now) (plain_expr x.now)) ≤ node_limit }
    ensures made { IfOk result (λ i. Made (λ G. HandedValue G (is_null_as want (plain_expr x.now)) want
        (emitted_expression G (facts_in facts.now) (sites_in facts.now) (plain_expr x.now))) graph.old graph.new i next) }
    ensures few { IfOk result (λ i. length graph.new ≤ length graph.old + (3 + expr_room (sites_in facts.now) (plain_expr x.now))) }
{
    if is_null_as(want, x) {
        let i = graph.put(Node::Null { next })?;
        return Ok(i);
    }
    let handed = put_handed(graph, want, next)?;
    let i = emit_value(graph, facts, x, handed)?;
    Ok(i)
}

/// A cast, which may be one to `void`.
#[cycle(emission)]
pub fn emit_cast(
    graph: &mut Graph,
    facts: &TreeFacts,
    want: Option<ValueType>,
    operand: &Expr,
    purpose: Purpose,
) -> Result<u32, Memory>
    requires room { length graph.old + (4 + expr_room (sites_in facts.now) (plain_expr operand.now)) ≤ node_limit }
    ensures made { IfOk result (λ i. MadeFor
        (λ G. Serves (Cast G (is_null_as want (plain_expr operand.now)) want
        (emitted_expression G (facts_in facts.now) (sites_in facts.now) (plain_expr operand.now)))) graph.old graph.new i purpose) }
    ensures few { IfOk result (λ i. length graph.new ≤ length graph.old + (4 + expr_room (sites_in facts.now) (plain_expr operand.now))) }
{
    if !is_void(want) {
        let after = put_taken(graph, purpose)?;
        let i = emit_handed(graph, facts, want, operand, after)?;
        return Ok(i);
    }
    match purpose {
        Purpose::Effect { next } => {
            let i = emit(graph, facts, operand, Purpose::Effect { next })?;
            Ok(i)
        }
        _ => {
            let i = put_stuck(graph, 0)?;
            Ok(i)
        }
    }
}

/// An arm of `? :` as a value of the type of the whole.
#[cycle(emission)]
#[tactic(auto, using(lower_nodes::proofs::Building::parts_made))]
pub fn emit_arm_value(
    graph: &mut Graph,
    facts: &TreeFacts,
    want: Option<ValueType>,
    x: &Expr,
    next: u32,
) -> Result<u32, Memory>
    requires room { length graph.old + (3 + expr_room (sites_in facts.now) (plain_expr x.now)) ≤ node_limit }
    ensures made { IfOk result (λ i. Made (arm_value_part (facts_in facts.now) (sites_in facts.now) want (plain_expr x.now)) graph.old graph.new i next) }
    ensures few { IfOk result (λ i. length graph.new ≤ length graph.old + (3 + expr_room (sites_in facts.now) (plain_expr x.now))) }
{
    if is_null_as(want, x) {
        let i = graph.put(Node::Null { next })?;
        return Ok(i);
    }
    let arm = put_arm(graph, facts.type_of(x), want, next)?;
    let i = emit_value(graph, facts, x, arm)?;
    Ok(i)
}

/// An arm of `? :` where nothing takes the value of the whole.
#[cycle(emission)]
#[tactic(auto, using(crate::proofs::Choosing::arms_made))]
pub fn emit_arm_effect(
    graph: &mut Graph,
    facts: &TreeFacts,
    want: Option<ValueType>,
    x: &Expr,
    next: u32,
) -> Result<u32, Memory>
    requires room { length graph.old + (4 + expr_room (sites_in facts.now) (plain_expr x.now)) ≤ node_limit }
    ensures made { IfOk result (λ i. Made (arm_effect_part (facts_in facts.now) (sites_in facts.now) want (plain_expr x.now)) graph.old graph.new i next) }
    ensures few { IfOk result (λ i. length graph.new ≤ length graph.old + (4 + expr_room (sites_in facts.now) (plain_expr x.now))) }
{
    if is_void(want) {
        let i = emit(graph, facts, x, Purpose::Effect { next })?;
        return Ok(i);
    }
    let drop = graph.put(Node::Drop { next })?;
    let i = emit_arm_value(graph, facts, want, x, drop)?;
    Ok(i)
}

/// The arms of `? :` as values of its type, and its condition before them.
#[cycle(emission)]
pub fn emit_chosen(
    graph: &mut Graph,
    facts: &TreeFacts,
    token: u32,
    condition: &Expr,
    first: &Expr,
    second: &Expr,
    next: u32,
) -> Result<u32, Memory>
    requires room { length graph.old + (7 + branch_visits (sites_in facts.now) token + expr_room (sites_in facts.now) (plain_expr condition.now)
        + expr_room (sites_in facts.now) (plain_expr first.now) + expr_room (sites_in facts.now) (plain_expr second.now)) ≤ node_limit }
    ensures made { IfOk result (λ i. Made (value_part (facts_in facts.now) (sites_in facts.now)
        (e.Conditional token (plain_expr condition.now) (plain_expr first.now) (plain_expr second.now))) graph.old graph.new i next) }
    ensures few { IfOk result (λ i. length graph.new ≤ length graph.old
        + (7 + branch_visits (sites_in facts.now) token + expr_room (sites_in facts.now) (plain_expr condition.now)
        + expr_room (sites_in facts.now) (plain_expr first.now) + expr_room (sites_in facts.now) (plain_expr second.now))) }
{
    let want = facts.type_at(token);
    let no = emit_arm_value(graph, facts, want, second, next)?;
    let yes = emit_arm_value(graph, facts, want, first, next)?;
    let i = emit_condition(graph, facts, token, condition, yes, no)?;
    Ok(i)
}

/// `? :`. Where nothing takes its value, its arms needn't give any.
#[cycle(emission)]
pub fn emit_conditional(
    graph: &mut Graph,
    facts: &TreeFacts,
    token: u32,
    condition: &Expr,
    first: &Expr,
    second: &Expr,
    purpose: Purpose,
) -> Result<u32, Memory>
    requires room { length graph.old + expr_room (sites_in facts.now)
        (e.Conditional token (plain_expr condition.now) (plain_expr first.now) (plain_expr second.now)) ≤ node_limit }
    ensures made { IfOk result (λ i. MadeFor
        (purpose_part (facts_in facts.now) (sites_in facts.now)
        (e.Conditional token (plain_expr condition.now) (plain_expr first.now) (plain_expr second.now))) graph.old graph.new i purpose) }
    ensures few { IfOk result (λ i. length graph.new ≤ length graph.old
        + expr_room (sites_in facts.now) (e.Conditional token (plain_expr condition.now) (plain_expr first.now) (plain_expr second.now))) }
{
    match purpose {
        Purpose::Effect { next } => {
            let want = facts.type_at(token);
            let no = emit_arm_effect(graph, facts, want, second, next)?;
            let yes = emit_arm_effect(graph, facts, want, first, next)?;
            let i = emit_condition(graph, facts, token, condition, yes, no)?;
            Ok(i)
        }
        _ => {
            let after = put_taken(graph, purpose)?;
            let i = emit_chosen(graph, facts, token, condition, first, second, after)?;
            Ok(i)
        }
    }
}

/// Operands of which the last gives the value.
#[cycle(emission)]
pub fn emit_last(
    graph: &mut Graph,
    facts: &TreeFacts,
    operands: &[Expr],
    purpose: Purpose,
) -> Result<u32, Memory>
    requires room { length graph.old + (3 + exprs_room (sites_in facts.now) 0 (plain_exprs operands.now)) ≤ node_limit }
    ensures made { IfOk result (λ i. MadeFor (λ G. Serves (CommaDoes G (facts_in facts.now) (sites_in facts.now) (plain_exprs operands.now)))
        graph.old graph.new i purpose) }
    ensures few { IfOk result (λ i. length graph.new ≤ length graph.old + (3 + exprs_room (sites_in facts.now) 0 (plain_exprs operands.now))) }
{
    if operands.len() == 0 {
        let after = put_taken(graph, purpose)?;
        let i = put_stuck(graph, after)?;
        return Ok(i);
    }
    let last = operands.len() - 1;
    let ended = emit(graph, facts, &operands[last], purpose)?;
    let mut entry = ended;
    for place in (0..last).rev() {
        entry = emit(
            graph,
            facts,
            &operands[place],
            Purpose::Effect { next: entry },
        )?;
    }
    Ok(entry)
}
