ghost use Rattle.flow.specs.Limits.{node_limit};
ghost use Rattle.std.specs.Prelude.{IfOk, length, ◌≤◌, ◌+◌};
ghost use Rattle.c_syntax.specs.Plain.{plain_expr};
ghost use Rattle.c_meaning.specs.Words.{is_null_as, type_of};
ghost use Rattle.lower_relation.specs.Expressions.{emitted_expression};
ghost use Rattle.lower_relation.specs.Values.{WantedValue};
ghost use Rattle.lower_relation.specs.Room.{expr_room};
ghost use Rattle.lower_nodes.specs.Made.{Made, MadeFor};
ghost use Rattle.lower_nodes.specs.Parts.{effect_part, purpose_part, value_part};
ghost use Rattle.lower_facts.specs.Facts.{facts_in, sites_in};

use crate::calls::emit_call;
use crate::chains::emit_chain;
use crate::choices::{emit_cast, emit_conditional, emit_last};
use crate::operators::{emit_assign, emit_prefix};
use crate::postfix::emit_postfix;
use c_meaning::ValueType;
use c_syntax::Expr;
use cbi_base::{Kind, Memory};
use flow::Node;
use lower_facts::TreeFacts;
use lower_nodes::{
    Graph, Purpose, put_constant, put_converted, put_name, put_null, put_size, put_text,
};
use lower_trees::is_null_as;

/// An expression, for what its value is wanted for.
#[cycle(emission)]
pub fn emit(graph: &mut Graph, facts: &TreeFacts, x: &Expr, purpose: Purpose) -> Result<u32, Memory>
    requires room { length graph.old + expr_room (sites_in facts.now) (plain_expr x.now) ≤ node_limit }
    ensures made { IfOk result (λ i. MadeFor (purpose_part (facts_in facts.now) (sites_in facts.now) (plain_expr x.now)) graph.old graph.new i purpose) }
    ensures few { IfOk result (λ i. length graph.new ≤ length graph.old + expr_room (sites_in facts.now) (plain_expr x.now)) }
{
    match x {
        Expr::Comma { operands, .. } => emit_last(graph, facts, operands.as_slice(), purpose),
        Expr::Conditional {
            token,
            condition,
            first,
            second,
        } => emit_conditional(graph, facts, *token, condition, first, second, purpose),
        Expr::Chain { first, links, .. } => {
            emit_chain(graph, facts, first, links.as_slice(), purpose)
        }
        Expr::Cast { token, operand, .. } => {
            emit_cast(graph, facts, facts.type_at(*token), operand, purpose)
        }
        Expr::Postfix { primary, operators } => {
            emit_postfix(graph, facts, primary, operators.as_slice(), purpose)
        }
        Expr::Assign {
            token,
            sign,
            target,
            value,
        } => emit_assign(graph, facts, *token, *sign, target, value, purpose),
        Expr::Prefix {
            token,
            operator,
            operand,
        } => emit_prefix(graph, facts, *token, *operator, operand, purpose),
        Expr::SizeOfType { base, stars, .. } => {
            put_size(graph, facts.named_cells(base, *stars), purpose)
        }
        Expr::Name { token, .. } => {
            put_name(graph, facts.type_at(*token), facts.slot_at(*token), purpose)
        }
        Expr::Call {
            token,
            name,
            arguments,
        } => emit_call(graph, facts, *token, name, arguments.as_slice(), purpose),
        Expr::Constant { kind, value, .. } => put_constant(graph, *kind, *value, purpose),
        Expr::Strings { token, .. } => put_text(graph, facts.text_at(*token), purpose),
        Expr::Paren { inner, .. } => emit(graph, facts, inner, purpose),
        Expr::Null { .. } => put_null(graph, purpose),
        Expr::EndOfFile { .. } => put_constant(graph, Kind::Int, -1, purpose),
    }
}

/// The value of an expression.
#[cycle(emission)]
#[tactic(auto, using(lower_nodes::proofs::Serving::parts_served))]
pub fn emit_value(graph: &mut Graph, facts: &TreeFacts, x: &Expr, next: u32) -> Result<u32, Memory>
    requires room { length graph.old + expr_room (sites_in facts.now) (plain_expr x.now) ≤ node_limit }
    ensures made { IfOk result (λ i. Made (value_part (facts_in facts.now) (sites_in facts.now) (plain_expr x.now)) graph.old graph.new i next) }
    ensures few { IfOk result (λ i. length graph.new ≤ length graph.old + expr_room (sites_in facts.now) (plain_expr x.now)) }
{
    let i = emit(graph, facts, x, Purpose::Value { next })?;
    Ok(i)
}

/// An expression whose value isn't taken.
#[tactic(auto, using(lower_nodes::proofs::Serving::parts_served))]
pub fn emit_effect(graph: &mut Graph, facts: &TreeFacts, x: &Expr, next: u32) -> Result<u32, Memory>
    requires room { length graph.old + expr_room (sites_in facts.now) (plain_expr x.now) ≤ node_limit }
    ensures made { IfOk result (λ i. Made (effect_part (facts_in facts.now) (sites_in facts.now) (plain_expr x.now)) graph.old graph.new i next) }
    ensures few { IfOk result (λ i. length graph.new ≤ length graph.old + expr_room (sites_in facts.now) (plain_expr x.now)) }
{
    let i = emit(graph, facts, x, Purpose::Effect { next })?;
    Ok(i)
}

/// The value of an expression as one of the wanted type, as by assignment.
#[cycle(emission)]
#[tactic(auto, using(lower_nodes::proofs::Building::parts_made))]
pub fn emit_wanted(
    graph: &mut Graph,
    facts: &TreeFacts,
    want: Option<ValueType>,
    x: &Expr,
    next: u32,
) -> Result<u32, Memory>
    requires room { length graph.old + (2 + expr_room (sites_in facts.now) (plain_expr x.now)) ≤ node_limit }
    ensures made { IfOk result (λ i. Made (λ G. WantedValue G (is_null_as want (plain_expr x.now)) (type_of (facts_in facts.now) (plain_expr x.now))
        want (emitted_expression G (facts_in facts.now) (sites_in facts.now) (plain_expr x.now))) graph.old graph.new i next) }
    ensures few { IfOk result (λ i. length graph.new ≤ length graph.old + (2 + expr_room (sites_in facts.now) (plain_expr x.now))) }
{
    if is_null_as(want, x) {
        let i = graph.put(Node::Null { next })?;
        return Ok(i);
    }
    let converted = put_converted(graph, facts.type_of(x), want, next)?;
    let i = emit_value(graph, facts, x, converted)?;
    Ok(i)
}
