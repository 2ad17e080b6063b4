ghost use Rattle.flow.specs.Limits.{node_limit};
ghost use Rattle.std.specs.Prelude.{◌≡◌, IfOk, Some, map, option_map, length, ◌≤◌, ◌+◌};
ghost use Rattle.std.specs.List.{sum_by};
ghost use Rattle.c_meaning.specs.Words.{equals_token, want_of, text_of_string};
ghost use Rattle.c_syntax.specs.Plain.{plain_declaration, plain_expr, plain_exprs, plain_initial, plain_start};
ghost use Rattle.lower_relation.specs.Expressions.{number_of_text};
ghost use Rattle.lower_relation.specs.Initialisers.{VariablesStart, Clears, DeclarationPath, ElementSet, ElementsSet, Initialised, OnLocal};
ghost use Rattle.lower_relation.specs.Initialisers.{ScalarSet, Spells, VariableStarts, ValueSet, Zeroes};
ghost use Rattle.lower_relation.specs.Room.{declaration_room, expr_room, exprs_room, initial_room, pair_visits, start_room};
ghost use Rattle.lower_nodes.specs.Made.{Made};
ghost use Rattle.lower_statements.specs.Locals.{local_of};
ghost use Rattle.lower_statements.specs.Strings.{StringSet, is_array, known_text, text_with};
ghost use Rattle.lower_facts.specs.Facts.{facts_in, sites_in};

use c_meaning::ValueType;
use c_syntax::{Declaration, Expr, Initial, Start};
use cbi_base::{Memory, Want};
use flow::{Node, Slot};
use lower_expressions::emit_wanted;
use lower_facts::TreeFacts;
use lower_nodes::{Graph, put_assigned_behind, put_member, put_stuck, put_variable};
use lower_operators::number_of_text;

/// What an array's elements are, where it is set to zero.
fn want_of(of: Option<ValueType>) -> Option<Want>
    ensures { result ≡ want_of of }
{
    match of {
        Some(ValueType::Number { kind }) => Some(Want::Number { kind }),
        Some(ValueType::Pointer { .. }) => Some(Want::Pointer),
        _ => None,
    }
}

/// The number of the local variable that a name stands for.
fn local_of(slot: Option<Slot>) -> Option<u32>
    ensures { result ≡ local_of slot }
{
    match slot {
        Some(Slot::Local { index }) => Some(index),
        Some(Slot::Global { .. }) | None => None,
    }
}

/// A declared variable is undefined from here on.
fn put_cleared(graph: &mut Graph, slot: Option<Slot>, next: u32) -> Result<u32, Memory>
    requires room { length graph.old + 2 ≤ node_limit }
    ensures made { IfOk result (λ i. Made (λ G. OnLocal G slot (Clears G)) graph.old graph.new i next) }
    ensures few { IfOk result (λ i. length graph.new ≤ length graph.old + 2) }
{
    let Some(index) = local_of(slot) else {
        let stuck = put_stuck(graph, next)?;
        return Ok(stuck);
    };
    let i = graph.put(Node::Clear { index, next })?;
    Ok(i)
}

/// All cells of a local variable are set so.
fn put_zero(graph: &mut Graph, index: u32, want: Option<Want>, next: u32) -> Result<u32, Memory>
    requires room { length graph.old + 2 ≤ node_limit }
    ensures made { IfOk result (λ i. Made (λ G. Zeroes G want index) graph.old graph.new i next) }
    ensures few { IfOk result (λ i. length graph.new ≤ length graph.old + 2) }
{
    let Some(want) = want else {
        let stuck = put_stuck(graph, next)?;
        return Ok(stuck);
    };
    let i = graph.put(Node::Zero { index, want, next })?;
    Ok(i)
}

/// All cells of a local array are zero, or null.
fn put_zeroed(
    graph: &mut Graph,
    slot: Option<Slot>,
    element: Option<ValueType>,
    next: u32,
) -> Result<u32, Memory>
    requires room { length graph.old + 2 ≤ node_limit }
    ensures made { IfOk result (λ i. Made (λ G. OnLocal G slot (Zeroes G (want_of element))) graph.old graph.new i next) }
    ensures few { IfOk result (λ i. length graph.new ≤ length graph.old + 2) }
{
    let Some(index) = local_of(slot) else {
        let stuck = put_stuck(graph, next)?;
        return Ok(stuck);
    };
    let i = put_zero(graph, index, want_of(element), next)?;
    Ok(i)
}

/// The number of a string, where there is one with this number.
fn known_text(facts: &TreeFacts, number: Option<u32>) -> Option<u32>
    ensures { result ≡ known_text (facts_in facts.now) number }
{
    let text = number?;
    match facts.texts().get(text as usize) {
        None => None,
        Some(_) => Some(text),
    }
}

/// The bytes of the string with this number are stored in a local array.
fn put_spell(
    graph: &mut Graph,
    facts: &TreeFacts,
    number: Option<u32>,
    index: u32,
    next: u32,
) -> Result<u32, Memory>
    requires room { length graph.old + 2 ≤ node_limit }
    ensures made { IfOk result (λ i. Made (λ G. Spells G number (text_with (facts_in facts.now) number) index) graph.old graph.new i next) }
    ensures few { IfOk result (λ i. length graph.new ≤ length graph.old + 2) }
{
    let Some(text) = known_text(facts, number) else {
        let stuck = put_stuck(graph, next)?;
        return Ok(stuck);
    };
    let i = graph.put(Node::Spell { index, text, next })?;
    Ok(i)
}

/// The bytes of a string are stored in a local array.
fn put_spelled(
    graph: &mut Graph,
    facts: &TreeFacts,
    slot: Option<Slot>,
    x: &Expr,
    next: u32,
) -> Result<u32, Memory>
    requires room { length graph.old + 2 ≤ node_limit }
    ensures made { IfOk result (λ i. Made (λ G. OnLocal G slot
        (Spells G (number_of_text (facts_in facts.now) (plain_expr x.now)) (text_of_string (facts_in facts.now) (plain_expr x.now))))
        graph.old graph.new i next) }
    ensures few { IfOk result (λ i. length graph.new ≤ length graph.old + 2) }
{
    let Some(index) = local_of(slot) else {
        let stuck = put_stuck(graph, next)?;
        return Ok(stuck);
    };
    let i = put_spell(graph, facts, number_of_text(facts, x), index, next)?;
    Ok(i)
}

/// A scalar is stored as by assignment, with the visits of the sites at the `=`.
fn emit_scalar(
    graph: &mut Graph,
    facts: &TreeFacts,
    token: u32,
    x: &Expr,
    next: u32,
) -> Result<u32, Memory>
    requires room { length graph.old + (6 + pair_visits (sites_in facts.now) (equals_token token) + expr_room (sites_in facts.now) (plain_expr x.now)) ≤
        node_limit }
    ensures made { IfOk result (λ i. Made (λ G. ScalarSet G (facts_in facts.now) (sites_in facts.now) token (plain_expr x.now)) graph.old graph.new i next) }
    ensures few { IfOk result (λ i. length graph.new ≤ length graph.old
        + (6 + pair_visits (sites_in facts.now) (equals_token token) + expr_room (sites_in facts.now) (plain_expr x.now))) }
{
    let drop = graph.put(Node::Drop { next })?;
    let assigned = put_assigned_behind(graph, facts, token, drop)?;
    let wanted = emit_wanted(graph, facts, facts.declared_at(token), x, assigned)?;
    let i = put_variable(graph, facts.slot_at(token), wanted)?;
    Ok(i)
}

/// An element with this number is stored as by assignment.
fn emit_element(
    graph: &mut Graph,
    facts: &TreeFacts,
    token: u32,
    index: u32,
    x: &Expr,
    next: u32,
) -> Result<u32, Memory>
    requires room { length graph.old + (8 + expr_room (sites_in facts.now) (plain_expr x.now)) ≤ node_limit }
    ensures made { IfOk result (λ i. Made (λ G. ElementSet G (facts_in facts.now) (sites_in facts.now) token index (plain_expr x.now))
        graph.old graph.new i next) }
    ensures few { IfOk result (λ i. length graph.new ≤ length graph.old + (8 + expr_room (sites_in facts.now) (plain_expr x.now))) }
{
    let drop = graph.put(Node::Drop { next })?;
    let store = graph.put(Node::Store { next: drop })?;
    let wanted = emit_wanted(graph, facts, facts.element_at(token), x, store)?;
    let member = put_member(graph, Some(index), wanted)?;
    let i = put_variable(graph, facts.slot_at(token), member)?;
    Ok(i)
}

/// The items of a list are stored one after another.
fn emit_elements(
    graph: &mut Graph,
    facts: &TreeFacts,
    token: u32,
    items: &[Expr],
    next: u32,
) -> Result<u32, Memory>
    requires room { length graph.old + exprs_room (sites_in facts.now) 8 (plain_exprs items.now) ≤ node_limit }
    ensures made { IfOk result (λ i. Made (λ G. ElementsSet G (facts_in facts.now) (sites_in facts.now) token 0 (plain_exprs items.now))
        graph.old graph.new i next) }
    ensures few { IfOk result (λ i. length graph.new ≤ length graph.old + exprs_room (sites_in facts.now) 8 (plain_exprs items.now)) }
{
    let mut first = next;
    for place in (0..items.len()).rev() {
        let index = place as u32;
        first = emit_element(graph, facts, token, index, &items[place], first)?;
    }
    Ok(first)
}

/// An array is zero in all cells, and then holds the bytes of a string.
fn emit_string(
    graph: &mut Graph,
    facts: &TreeFacts,
    token: u32,
    x: &Expr,
    next: u32,
) -> Result<u32, Memory>
    requires room { length graph.old + 4 ≤ node_limit }
    ensures made { IfOk result (λ i. Made (λ G. StringSet G (facts_in facts.now) (sites_in facts.now) token (plain_expr x.now)) graph.old graph.new i next) }
    ensures few { IfOk result (λ i. length graph.new ≤ length graph.old + 4) }
{
    let spelled = put_spelled(graph, facts, facts.slot_at(token), x, next)?;
    let i = put_zeroed(
        graph,
        facts.slot_at(token),
        facts.element_at(token),
        spelled,
    )?;
    Ok(i)
}

/// Whether the type is an array's.
fn is_array(of: Option<ValueType>) -> bool
    ensures { result ≡ is_array of }
{
    matches!(of, Some(ValueType::Array { .. }))
}

/// A variable is initialised by one expression: a scalar, or an array by a string.
fn emit_single(
    graph: &mut Graph,
    facts: &TreeFacts,
    token: u32,
    x: &Expr,
    next: u32,
) -> Result<u32, Memory>
    requires room { length graph.old + (6 + pair_visits (sites_in facts.now) (equals_token token) + expr_room (sites_in facts.now) (plain_expr x.now)) ≤
        node_limit }
    ensures made { IfOk result (λ i. Made (λ G. ValueSet G (facts_in facts.now) (sites_in facts.now) token ((facts_in facts.now).declared_at token)
        (plain_expr x.now)) graph.old graph.new i next) }
    ensures few { IfOk result (λ i. length graph.new ≤ length graph.old
        + (6 + pair_visits (sites_in facts.now) (equals_token token) + expr_room (sites_in facts.now) (plain_expr x.now))) }
{
    if is_array(facts.declared_at(token)) {
        let i = emit_string(graph, facts, token, x, next)?;
        return Ok(i);
    }
    let i = emit_scalar(graph, facts, token, x, next)?;
    Ok(i)
}

/// An initialiser of the variable whose name is at the token.
fn emit_initial(
    graph: &mut Graph,
    facts: &TreeFacts,
    token: u32,
    initial: &Initial,
    next: u32,
) -> Result<u32, Memory>
    requires room { length graph.old + initial_room (sites_in facts.now) token (Some (plain_initial initial.now)) ≤ node_limit }
    ensures made { IfOk result (λ i. Made (λ G. Initialised G (facts_in facts.now) (sites_in facts.now) token (Some (plain_initial initial.now)))
        graph.old graph.new i next) }
    ensures few { IfOk result (λ i. length graph.new ≤ length graph.old + initial_room (sites_in facts.now) token (Some (plain_initial initial.now))) }
{
    match initial {
        Initial::Value { value } => {
            let i = emit_single(graph, facts, token, value, next)?;
            Ok(i)
        }
        Initial::Braced { items, .. } => {
            let elements = emit_elements(graph, facts, token, items.as_slice(), next)?;
            let i = put_zeroed(
                graph,
                facts.slot_at(token),
                facts.element_at(token),
                elements,
            )?;
            Ok(i)
        }
    }
}

/// An initialiser that may be missing: then the variable stays as it is.
fn emit_optional_initial(
    graph: &mut Graph,
    facts: &TreeFacts,
    token: u32,
    initial: &Option<Initial>,
    next: u32,
) -> Result<u32, Memory>
    requires room { length graph.old + initial_room (sites_in facts.now) token (option_map plain_initial initial.now) ≤ node_limit }
    ensures made { IfOk result (λ i. Made (λ G. Initialised G (facts_in facts.now) (sites_in facts.now) token (option_map plain_initial initial.now))
        graph.old graph.new i next) }
    ensures few { IfOk result (λ i. length graph.new ≤ length graph.old + initial_room (sites_in facts.now) token (option_map plain_initial initial.now)) }
{
    match initial {
        None => Ok(next),
        Some(initial) => {
            let i = emit_initial(graph, facts, token, initial, next)?;
            Ok(i)
        }
    }
}

/// A declared variable, with its initialiser.
fn emit_start(graph: &mut Graph, facts: &TreeFacts, start: &Start, next: u32) -> Result<u32, Memory>
    requires room { length graph.old + start_room (sites_in facts.now) (plain_start start.now) ≤ node_limit }
    ensures made { IfOk result (λ i. Made (λ G. VariableStarts G (facts_in facts.now) (sites_in facts.now) (plain_start start.now))
        graph.old graph.new i next) }
    ensures few { IfOk result (λ i. length graph.new ≤ length graph.old + start_room (sites_in facts.now) (plain_start start.now)) }
{
    let token = start.declarator.name_token;
    let initialised = emit_optional_initial(graph, facts, token, &start.initial, next)?;
    let i = put_cleared(graph, facts.slot_at(token), initialised)?;
    Ok(i)
}

/// Several declared variables, one after another.
fn emit_starts(
    graph: &mut Graph,
    facts: &TreeFacts,
    starts: &[Start],
    next: u32,
) -> Result<u32, Memory>
    requires room { length graph.old + sum_by (start_room (sites_in facts.now)) (map plain_start starts.now) ≤ node_limit }
    ensures made { IfOk result (λ i. Made (λ G. VariablesStart G (facts_in facts.now) (sites_in facts.now) (map plain_start starts.now)) graph.old graph.new i
        next) }
    ensures few { IfOk result (λ i. length graph.new ≤ length graph.old + sum_by (start_room (sites_in facts.now)) (map plain_start starts.now)) }
{
    let mut first = next;
    for place in (0..starts.len()).rev() {
        first = emit_start(graph, facts, &starts[place], first)?;
    }
    Ok(first)
}

/// A declaration in a block, or in a `for`.
pub fn emit_declaration(
    graph: &mut Graph,
    facts: &TreeFacts,
    declaration: &Declaration,
    next: u32,
) -> Result<u32, Memory>
    requires room { length graph.old + declaration_room (sites_in facts.now) (plain_declaration declaration.now) ≤ node_limit }
    ensures made { IfOk result (λ i. Made (λ G. DeclarationPath G (facts_in facts.now) (sites_in facts.now) (plain_declaration declaration.now))
        graph.old graph.new i next) }
    ensures few { IfOk result (λ i. length graph.new ≤ length graph.old + declaration_room (sites_in facts.now) (plain_declaration declaration.now)) }
{
    let i = emit_starts(graph, facts, declaration.starts.as_slice(), next)?;
    Ok(i)
}
