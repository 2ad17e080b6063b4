ghost use Rattle.flow.specs.Limits.{node_limit};
ghost use Rattle.std.specs.Prelude.{IfOk, length, ◌≤◌, ◌+◌};
ghost use Rattle.c_syntax.specs.ExprTree as e;
ghost use Rattle.c_syntax.specs.Plain.{plain_exprs};
ghost use Rattle.lower_relation.specs.Expressions.{ArgumentsDo};
ghost use Rattle.lower_relation.specs.Room.{expr_room, exprs_room};
ghost use Rattle.lower_nodes.specs.Made.{Made, MadeFor};
ghost use Rattle.lower_nodes.specs.Parts.{purpose_part};
ghost use Rattle.lower_operators.specs.Taken.{wanted_types};
ghost use Rattle.lower_facts.specs.Facts.{facts_in, sites_in};

use crate::choices::emit_handed;
use c_syntax::Expr;
use cbi_base::{Memory, Name};
use lower_facts::TreeFacts;
use lower_nodes::{Graph, Purpose, put_stuck};
use lower_operators::{
    Wanted, fits, giving_of, is_refused, passed, put_acts, put_given, put_unfit, type_wanted,
    wanted_by,
};

/// Arguments as values of these types, the first one first.
#[cycle(emission)]
pub fn emit_arguments(
    graph: &mut Graph,
    facts: &TreeFacts,
    wanted: Wanted,
    arguments: &[Expr],
    next: u32,
) -> Result<u32, Memory>
    requires room { length graph.old + exprs_room (sites_in facts.now) 3 (plain_exprs arguments.now) ≤ node_limit }
    ensures made { IfOk result (λ i. Made (λ G. ArgumentsDo G (facts_in facts.now) (sites_in facts.now) (wanted_types wanted.entry)
        (plain_exprs arguments.now)) graph.old graph.new i next) }
    ensures few { IfOk result (λ i. length graph.new ≤ length graph.old + exprs_room (sites_in facts.now) 3 (plain_exprs arguments.now)) }
{
    let mut entry = next;
    for place in (0..arguments.len()).rev() {
        let want = type_wanted(wanted, place);
        entry = emit_handed(graph, facts, want, &arguments[place], entry)?;
    }
    Ok(entry)
}

/// A call, for what its value is wanted for. One that doesn't fit stands in no checked text.
#[cycle(emission)]
pub fn emit_call(
    graph: &mut Graph,
    facts: &TreeFacts,
    token: u32,
    name: &Name,
    arguments: &[Expr],
    purpose: Purpose,
) -> Result<u32, Memory>
    requires room { length graph.old + expr_room (sites_in facts.now) (e.Call token name.now (plain_exprs arguments.now)) ≤ node_limit }
    ensures made { IfOk result (λ i. MadeFor (purpose_part (facts_in facts.now) (sites_in facts.now) (e.Call token name.now (plain_exprs arguments.now)))
        graph.old graph.new i purpose) }
    ensures few { IfOk result (λ i. length graph.new ≤ length graph.old + expr_room (sites_in facts.now) (e.Call token name.now (plain_exprs arguments.now))) }
{
    let called = facts.called_as(token, name);
    let giving = giving_of(facts, called);
    if is_refused(giving, purpose) {
        let i = put_stuck(graph, 0)?;
        return Ok(i);
    }
    let after = put_given(graph, facts, token, giving, purpose)?;
    if !fits(facts, called, arguments) {
        let unfit = put_unfit(graph, facts, called, arguments, after)?;
        let i = put_stuck(graph, unfit)?;
        return Ok(i);
    }
    let acts = put_acts(graph, facts, called, arguments, after)?;
    let wanted = wanted_by(facts, called, arguments);
    let i = emit_arguments(graph, facts, wanted, passed(called, arguments), acts)?;
    Ok(i)
}
