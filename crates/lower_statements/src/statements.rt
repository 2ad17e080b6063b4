ghost use Rattle.flow.specs.Limits.{node_limit};
ghost use Rattle.std.specs.Prelude.{IfOk, option_map, length, ◌≤◌, ◌+◌};
ghost use Rattle.c_syntax.specs.Words.{plain_entries, plain_entry, plain_expr, plain_for_start, plain_second, plain_statement, no_entries};
ghost use Rattle.lower_relation.specs.Expressions.{Condition};
ghost use Rattle.lower_relation.specs.Statements.{DoWhileLoop, ForLoop, ForStartPath, OptionalCondition, OptionalEffect, ReturnPath, StatementDoes, EntriesDo};
ghost use Rattle.lower_relation.specs.Statements.{WhileLoop};
ghost use Rattle.lower_statements.specs.Exits.{SecondRuns, exits_of};
ghost use Rattle.lower_relation.specs.Room.{branch_visits, entries_room, expr_room, for_start_room, part_room, second_room, statement_room};
ghost use Rattle.lower_nodes.specs.Made.{Made, MadeExits, MadeWays};
ghost use Rattle.lower_nodes.specs.Purposes.{condition_ways};
ghost use Rattle.lower_facts.specs.Facts.{facts_in, sites_in};

use crate::exits::{Exits, next_at, within_loop};
use crate::initialisers::emit_declaration;
use c_meaning::ValueType;
use c_syntax::{Entry, Expr, ForStart, Statement};
use cbi_base::Memory;
use flow::Node;
use lower_expressions::{emit_condition, emit_effect, emit_wanted};
use lower_facts::TreeFacts;
use lower_nodes::Graph;

/// An expression that may be missing, where nothing takes its value.
fn emit_optional_effect(
    graph: &mut Graph,
    facts: &TreeFacts,
    x: &Option<Expr>,
    next: u32,
) -> Result<u32, Memory>
    requires room { length graph.old + part_room (sites_in facts.now) (option_map plain_expr x.now) ≤ node_limit }
    ensures made { IfOk result (λ i. Made (λ G. OptionalEffect G (facts_in facts.now) (sites_in facts.now) (option_map plain_expr x.now))
        graph.old graph.new i next) }
    ensures few { IfOk result (λ i. length graph.new ≤ length graph.old + part_room (sites_in facts.now) (option_map plain_expr x.now)) }
{
    match x {
        None => Ok(next),
        Some(x) => {
            let i = emit_effect(graph, facts, x, next)?;
            Ok(i)
        }
    }
}

/// A condition that may be missing: then it is true.
fn emit_optional_condition(
    graph: &mut Graph,
    facts: &TreeFacts,
    token: u32,
    x: &Option<Expr>,
    yes: u32,
    no: u32,
) -> Result<u32, Memory>
    requires room { length graph.old + (1 + branch_visits (sites_in facts.now) token + part_room (sites_in facts.now) (option_map plain_expr x.now)) ≤
        node_limit }
    ensures made { IfOk result (λ i. MadeWays (λ G. OptionalCondition G (facts_in facts.now) (sites_in facts.now) token (option_map plain_expr x.now))
        graph.old graph.new i (condition_ways yes no)) }
    ensures few { IfOk result (λ i. length graph.new ≤ length graph.old
        + (1 + branch_visits (sites_in facts.now) token + part_room (sites_in facts.now) (option_map plain_expr x.now))) }
{
    match x {
        None => Ok(yes),
        Some(x) => {
            let i = emit_condition(graph, facts, token, x, yes, no)?;
            Ok(i)
        }
    }
}

/// What a `for` does first.
fn emit_for_start(
    graph: &mut Graph,
    facts: &TreeFacts,
    start: &ForStart,
    next: u32,
) -> Result<u32, Memory>
    requires room { length graph.old + for_start_room (sites_in facts.now) (plain_for_start start.now) ≤ node_limit }
    ensures made { IfOk result (λ i. Made (λ G. ForStartPath G (facts_in facts.now) (sites_in facts.now) (plain_for_start start.now)) graph.old graph.new i
        next) }
    ensures few { IfOk result (λ i. length graph.new ≤ length graph.old + for_start_room (sites_in facts.now) (plain_for_start start.now)) }
{
    match start {
        ForStart::Declares { declaration } => {
            let i = emit_declaration(graph, facts, declaration, next)?;
            Ok(i)
        }
        ForStart::Computes { expr } => {
            let i = emit_optional_effect(graph, facts, expr, next)?;
            Ok(i)
        }
    }
}

/// A `return` of a function with this result, with a value or without one.
fn emit_return(
    graph: &mut Graph,
    facts: &TreeFacts,
    gives: ValueType,
    value: &Option<Expr>,
    exits: Exits,
) -> Result<u32, Memory>
    requires room { length graph.old + (2 + part_room (sites_in facts.now) (option_map plain_expr value.now)) ≤ node_limit }
    ensures made { IfOk result (λ i. MadeExits (λ G. ReturnPath G (facts_in facts.now) (sites_in facts.now) gives (option_map plain_expr value.now))
        graph.old graph.new i (exits_of exits)) }
    ensures few { IfOk result (λ i. length graph.new ≤ length graph.old + (2 + part_room (sites_in facts.now) (option_map plain_expr value.now))) }
{
    match value {
        None => Ok(exits.leaves),
        Some(x) => {
            let i = emit_wanted(graph, facts, Some(gives), x, exits.gives)?;
            Ok(i)
        }
    }
}

/// A loop with its condition before its body. Its `again` is put first, and aimed last.
#[cycle(statements)]
fn emit_while(
    graph: &mut Graph,
    facts: &TreeFacts,
    gives: ValueType,
    token: u32,
    body: &Statement,
    condition: &Expr,
    exits: Exits,
) -> Result<u32, Memory>
    requires room { length graph.old + (2 + branch_visits (sites_in facts.now) token + expr_room (sites_in facts.now) (plain_expr condition.now)
        + statement_room (sites_in facts.now) (plain_statement body.now)) ≤ node_limit }
    ensures made { IfOk result (λ i. MadeExits
        (λ G. WhileLoop G (Condition G (facts_in facts.now) (sites_in facts.now) token (plain_expr condition.now))
        (StatementDoes G (facts_in facts.now) (sites_in facts.now) gives (plain_statement body.now))) graph.old graph.new i (exits_of exits)) }
    ensures few { IfOk result (λ i. length graph.new ≤ length graph.old
        + (2 + branch_visits (sites_in facts.now) token + expr_room (sites_in facts.now) (plain_expr condition.now)
        + statement_room (sites_in facts.now) (plain_statement body.now))) }
{
    let again = graph.put(Node::Again { next: 0 })?;
    let inside = emit_statement(
        graph,
        facts,
        gives,
        body,
        within_loop(exits, again, exits.next),
    )?;
    let head = emit_condition(graph, facts, token, condition, inside, exits.next)?;
    graph.aim(again, head);
    Ok(head)
}

/// A loop with its condition behind its body.
#[cycle(statements)]
fn emit_do(
    graph: &mut Graph,
    facts: &TreeFacts,
    gives: ValueType,
    token: u32,
    body: &Statement,
    condition: &Expr,
    exits: Exits,
) -> Result<u32, Memory>
    requires room { length graph.old + (2 + branch_visits (sites_in facts.now) token + expr_room (sites_in facts.now) (plain_expr condition.now)
        + statement_room (sites_in facts.now) (plain_statement body.now)) ≤ node_limit }
    ensures made { IfOk result (λ i. MadeExits
        (λ G. DoWhileLoop G (Condition G (facts_in facts.now) (sites_in facts.now) token (plain_expr condition.now))
        (StatementDoes G (facts_in facts.now) (sites_in facts.now) gives (plain_statement body.now))) graph.old graph.new i (exits_of exits)) }
    ensures few { IfOk result (λ i. length graph.new ≤ length graph.old
        + (2 + branch_visits (sites_in facts.now) token + expr_room (sites_in facts.now) (plain_expr condition.now)
        + statement_room (sites_in facts.now) (plain_statement body.now))) }
{
    let again = graph.put(Node::Again { next: 0 })?;
    let test = emit_condition(graph, facts, token, condition, again, exits.next)?;
    let head = emit_statement(
        graph,
        facts,
        gives,
        body,
        within_loop(exits, test, exits.next),
    )?;
    graph.aim(again, head);
    Ok(head)
}

/// A `for` behind what it does first.
#[cycle(statements)]
fn emit_for(
    graph: &mut Graph,
    facts: &TreeFacts,
    gives: ValueType,
    token: u32,
    body: &Statement,
    condition: &Option<Expr>,
    step: &Option<Expr>,
    exits: Exits,
) -> Result<u32, Memory>
    requires room { length graph.old + (2 + branch_visits (sites_in facts.now) token + part_room (sites_in facts.now) (option_map plain_expr condition.now)
        + part_room (sites_in facts.now) (option_map plain_expr step.now) + statement_room (sites_in facts.now) (plain_statement body.now)) ≤ node_limit }
    ensures made { IfOk result (λ i. MadeExits
        (λ G. ForLoop G (OptionalCondition G (facts_in facts.now) (sites_in facts.now) token (option_map plain_expr condition.now))
        (OptionalEffect G (facts_in facts.now) (sites_in facts.now) (option_map plain_expr step.now))
        (StatementDoes G (facts_in facts.now) (sites_in facts.now) gives (plain_statement body.now))) graph.old graph.new i (exits_of exits)) }
    ensures few { IfOk result (λ i. length graph.new ≤ length graph.old
        + (2 + branch_visits (sites_in facts.now) token + part_room (sites_in facts.now) (option_map plain_expr condition.now)
        + part_room (sites_in facts.now) (option_map plain_expr step.now) + statement_room (sites_in facts.now) (plain_statement body.now))) }
{
    let again = graph.put(Node::Again { next: 0 })?;
    let stepped = emit_optional_effect(graph, facts, step, again)?;
    let inside = emit_statement(
        graph,
        facts,
        gives,
        body,
        within_loop(exits, stepped, exits.next),
    )?;
    let head = emit_optional_condition(graph, facts, token, condition, inside, exits.next)?;
    graph.aim(again, head);
    Ok(head)
}

/// What is done where the condition of an `if` doesn't hold.
#[cycle(statements)]
fn emit_second(
    graph: &mut Graph,
    facts: &TreeFacts,
    gives: ValueType,
    second: &Option<Box<Statement>>,
    exits: Exits,
) -> Result<u32, Memory>
    requires room { length graph.old + second_room (sites_in facts.now) (plain_second second.now) ≤ node_limit }
    ensures made { IfOk result (λ i. MadeExits (λ G. SecondRuns G (facts_in facts.now) (sites_in facts.now) gives (plain_second second.now))
        graph.old graph.new i (exits_of exits)) }
    ensures few { IfOk result (λ i. length graph.new ≤ length graph.old + second_room (sites_in facts.now) (plain_second second.now)) }
{
    match second {
        None => Ok(exits.next),
        Some(second) => {
            let i = emit_statement(graph, facts, gives, second, exits)?;
            Ok(i)
        }
    }
}

/// A statement of a function with this result.
#[cycle(statements)]
pub fn emit_statement(
    graph: &mut Graph,
    facts: &TreeFacts,
    gives: ValueType,
    x: &Statement,
    exits: Exits,
) -> Result<u32, Memory>
    requires room { length graph.old + statement_room (sites_in facts.now) (plain_statement x.now) ≤ node_limit }
    ensures made { IfOk result (λ i. MadeExits (λ G. StatementDoes G (facts_in facts.now) (sites_in facts.now) gives (plain_statement x.now))
        graph.old graph.new i (exits_of exits)) }
    ensures few { IfOk result (λ i. length graph.new ≤ length graph.old + statement_room (sites_in facts.now) (plain_statement x.now)) }
{
    match x {
        Statement::Block { entries, .. } => emit_entries(
            graph,
            facts,
            gives,
            entries.as_slice(),
            exits,
        ),
        Statement::Empty { .. } => Ok(exits.next),
        Statement::Expr { expr, .. } => emit_effect(graph, facts, expr, exits.next),
        Statement::If {
            token,
            condition,
            first,
            second,
        } => {
            let no = emit_second(graph, facts, gives, second, exits)?;
            let yes = emit_statement(graph, facts, gives, first, exits)?;
            let i = emit_condition(graph, facts, *token, condition, yes, no)?;
            Ok(i)
        }
        Statement::While {
            token,
            condition,
            body,
        } => emit_while(graph, facts, gives, *token, body, condition, exits),
        Statement::Do {
            token,
            body,
            condition,
        } => emit_do(graph, facts, gives, *token, body, condition, exits),
        Statement::For {
            token,
            start,
            condition,
            step,
            body,
        } => {
            let head = emit_for(graph, facts, gives, *token, body, condition, step, exits)?;
            let i = emit_for_start(graph, facts, start, head)?;
            Ok(i)
        }
        Statement::Return { value, .. } => emit_return(graph, facts, gives, value, exits),
        Statement::Break { .. } => Ok(exits.breaks),
        Statement::Continue { .. } => Ok(exits.continues),
    }
}

/// A declaration or a statement alone.
#[cycle(statements)]
fn emit_entry(
    graph: &mut Graph,
    facts: &TreeFacts,
    gives: ValueType,
    entry: &Entry,
    exits: Exits,
) -> Result<u32, Memory>
    requires room { length graph.old + entries_room (sites_in facts.now) (plain_entry entry.now no_entries) ≤ node_limit }
    ensures made { IfOk result (λ i. MadeExits (λ G. EntriesDo G (facts_in facts.now) (sites_in facts.now) gives (plain_entry entry.now no_entries))
        graph.old graph.new i (exits_of exits)) }
    ensures few { IfOk result (λ i. length graph.new ≤ length graph.old + entries_room (sites_in facts.now) (plain_entry entry.now no_entries)) }
{
    match entry {
        Entry::Declaration { declaration } => {
            let i = emit_declaration(graph, facts, declaration, exits.next)?;
            Ok(i)
        }
        Entry::Statement { statement } => {
            let i = emit_statement(graph, facts, gives, statement, exits)?;
            Ok(i)
        }
    }
}

/// The entries of a block or a body, the last one first, since each goes on at the one after it.
#[cycle(statements)]
pub fn emit_entries(
    graph: &mut Graph,
    facts: &TreeFacts,
    gives: ValueType,
    entries: &[Entry],
    exits: Exits,
) -> Result<u32, Memory>
    requires room { length graph.old + entries_room (sites_in facts.now) (plain_entries entries.now) ≤ node_limit }
    ensures made { IfOk result (λ i. MadeExits (λ G. EntriesDo G (facts_in facts.now) (sites_in facts.now) gives (plain_entries entries.now))
        graph.old graph.new i (exits_of exits)) }
    ensures few { IfOk result (λ i. length graph.new ≤ length graph.old + entries_room (sites_in facts.now) (plain_entries entries.now)) }
{
    let mut first = exits.next;
    for place in (0..entries.len()).rev() {
        first = emit_entry(graph, facts, gives, &entries[place], next_at(exits, first))?;
    }
    Ok(first)
}
