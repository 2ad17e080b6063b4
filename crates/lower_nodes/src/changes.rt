ghost use Rattle.flow.specs.Limits.{node_limit};
ghost use Rattle.std.specs.Prelude.{◌≡◌, IfOk, length, ◌≤◌, ◌+◌};
ghost use Rattle.cbi_base.specs.Arithmetic.{kind_given};
ghost use Rattle.c_meaning.specs.Words.{conversion, type_given, step_operation};
ghost use Rattle.lower_relation.specs.Operators.{CompoundAssigned, Stepped, SteppedAs, SteppedBehind, Updates};
ghost use Rattle.lower_relation.specs.Values.{Converts};
ghost use Rattle.lower_relation.specs.Room.{pair_visits};
ghost use Rattle.lower_nodes.specs.Made.{Made};
ghost use Rattle.lower_nodes.specs.Replacing.{StoresResult};
ghost use Rattle.lower_facts.specs.Facts.{facts_in, sites_in};

use crate::graph::Graph;
use crate::marks::put_assigned;
use crate::operators::put_operation;
use crate::values::{put_conversion, put_load};
use c_meaning::{Operation, ValueType, conversion_of, left_kind, operation_of};
use cbi_base::{Binary, Kind, Memory};
use flow::Node;
use lower_facts::TreeFacts;
use lower_trees::{one_kind, step_of};

/// The kind of what a calculation with this kind gives: a comparison gives an `int`.
fn kind_given(op: Binary, kind: Kind) -> Kind
    ensures { result ≡ kind_given op kind }
{
    match op {
        Binary::Lt | Binary::Le | Binary::Gt | Binary::Ge | Binary::Eq | Binary::Ne => Kind::Int,
        _ => kind,
    }
}

/// The type of what an operation gives, with that of the pointer that it moves.
fn type_given(operation: Operation, moved: Option<ValueType>) -> Option<ValueType>
    ensures { result ≡ type_given operation moved }
{
    match operation {
        Operation::Numbers { op, left, right } => Some(ValueType::Number {
            kind: kind_given(op, left_kind(op, left, right)),
        }),
        Operation::MoveLeft { .. } | Operation::MoveRight { .. } => moved,
        Operation::Span { .. } | Operation::Ordered { .. } => {
            Some(ValueType::Number { kind: Kind::Int })
        }
        Operation::Wrong => None,
    }
}

/// A value of one type is used as one of another, as by assignment.
pub fn put_converted(
    graph: &mut Graph,
    have: Option<ValueType>,
    want: Option<ValueType>,
    next: u32,
) -> Result<u32, Memory>
    requires room { length graph.old + 2 ≤ node_limit }
    ensures made { IfOk result (λ i. Made (λ G. Converts G (conversion have want)) graph.old graph.new i next) }
    ensures few { IfOk result (λ i. length graph.new ≤ length graph.old + 2) }
{
    let i = put_conversion(graph, conversion_of(have, want), next)?;
    Ok(i)
}

/// The operation of `++` and `--`.
fn step(up: bool, of: Option<ValueType>) -> Operation
    ensures { result ≡ step_operation up of }
{
    let one = Some(ValueType::Number { kind: one_kind(of) });
    operation_of(step_of(up), of, one)
}

/// The result of an operation on an old value and a right one is converted and stored.
fn put_updates(
    graph: &mut Graph,
    facts: &TreeFacts,
    token: u32,
    of: Option<ValueType>,
    operation: Operation,
    next: u32,
) -> Result<u32, Memory>
    requires room { length graph.old + (9 + pair_visits (sites_in facts.now) token) ≤ node_limit }
    ensures made { IfOk result (λ i. Made (λ G. Updates G (facts_in facts.now) (sites_in facts.now) token of operation) graph.old graph.new i next) }
    ensures few { IfOk result (λ i. length graph.new ≤ length graph.old + (9 + pair_visits (sites_in facts.now) token)) }
{
    let stored = put_assigned(graph, facts, token, next)?;
    let converted = put_converted(graph, type_given(operation, of), of, stored)?;
    let i = put_operation(graph, operation, converted)?;
    Ok(i)
}

/// A compound assignment, from the place and the right value on.
pub fn put_changed(
    graph: &mut Graph,
    facts: &TreeFacts,
    token: u32,
    of: Option<ValueType>,
    operation: Operation,
    next: u32,
) -> Result<u32, Memory>
    requires room { length graph.old + (13 + pair_visits (sites_in facts.now) token) ≤ node_limit }
    ensures made { IfOk result (λ i. Made (λ G. CompoundAssigned G (facts_in facts.now) (sites_in facts.now) token of operation) graph.old graph.new i next) }
    ensures few { IfOk result (λ i. length graph.new ≤ length graph.old + (13 + pair_visits (sites_in facts.now) token)) }
{
    let updates = put_updates(graph, facts, token, of, operation, next)?;
    let swap = graph.put(Node::Swap { next: updates })?;
    let load = put_load(graph, of, swap)?;
    let i = graph.put(Node::Over { next: load })?;
    Ok(i)
}

/// `++` and `--` before a place.
pub fn put_stepped(
    graph: &mut Graph,
    facts: &TreeFacts,
    up: bool,
    token: u32,
    of: Option<ValueType>,
    next: u32,
) -> Result<u32, Memory>
    requires room { length graph.old + (13 + pair_visits (sites_in facts.now) token) ≤ node_limit }
    ensures made { IfOk result (λ i. Made (λ G. Stepped G (facts_in facts.now) (sites_in facts.now) up token of) graph.old graph.new i next) }
    ensures few { IfOk result (λ i. length graph.new ≤ length graph.old + (13 + pair_visits (sites_in facts.now) token)) }
{
    let updates = put_updates(graph, facts, token, of, step(up, of), next)?;
    let one = graph.put(Node::Push {
        kind: one_kind(of),
        value: 1,
        next: updates,
    })?;
    let load = put_load(graph, of, one)?;
    let i = graph.put(Node::Dup { next: load })?;
    Ok(i)
}

/// The new value is converted and stored, and the old one stays.
fn put_replaced(
    graph: &mut Graph,
    facts: &TreeFacts,
    token: u32,
    of: Option<ValueType>,
    operation: Operation,
    next: u32,
) -> Result<u32, Memory>
    requires room { length graph.old + (10 + pair_visits (sites_in facts.now) token) ≤ node_limit }
    ensures made { IfOk result (λ i. Made (λ G. StoresResult G (facts_in facts.now) (sites_in facts.now) token of operation) graph.old graph.new i next) }
    ensures few { IfOk result (λ i. length graph.new ≤ length graph.old + (10 + pair_visits (sites_in facts.now) token)) }
{
    let drop = graph.put(Node::Drop { next })?;
    let stored = put_assigned(graph, facts, token, drop)?;
    let converted = put_converted(graph, type_given(operation, of), of, stored)?;
    let i = put_operation(graph, operation, converted)?;
    Ok(i)
}

/// `++` and `--` behind a place leave the old value.
fn put_stepped_behind(
    graph: &mut Graph,
    facts: &TreeFacts,
    up: bool,
    token: u32,
    of: Option<ValueType>,
    next: u32,
) -> Result<u32, Memory>
    requires room { length graph.old + (16 + pair_visits (sites_in facts.now) token) ≤ node_limit }
    ensures made { IfOk result (λ i. Made (λ G. SteppedBehind G (facts_in facts.now) (sites_in facts.now) up token of) graph.old graph.new i next) }
    ensures few { IfOk result (λ i. length graph.new ≤ length graph.old + (16 + pair_visits (sites_in facts.now) token)) }
{
    let replaced = put_replaced(graph, facts, token, of, step(up, of), next)?;
    let one = graph.put(Node::Push {
        kind: one_kind(of),
        value: 1,
        next: replaced,
    })?;
    let over = graph.put(Node::Over { next: one })?;
    let swap = graph.put(Node::Swap { next: over })?;
    let load = put_load(graph, of, swap)?;
    let i = graph.put(Node::Dup { next: load })?;
    Ok(i)
}

/// `++` and `--` behind a place, whose old value is perhaps not taken.
pub fn put_stepped_as(
    graph: &mut Graph,
    facts: &TreeFacts,
    taken: bool,
    up: bool,
    token: u32,
    of: Option<ValueType>,
    next: u32,
) -> Result<u32, Memory>
    requires room { length graph.old + (16 + pair_visits (sites_in facts.now) token) ≤ node_limit }
    ensures made { IfOk result (λ i. Made (λ G. SteppedAs G (facts_in facts.now) (sites_in facts.now) taken up token of) graph.old graph.new i next) }
    ensures few { IfOk result (λ i. length graph.new ≤ length graph.old + (16 + pair_visits (sites_in facts.now) token)) }
{
    if taken {
        let i = put_stepped_behind(graph, facts, up, token, of, next)?;
        return Ok(i);
    }
    let i = put_stepped(graph, facts, up, token, of, next)?;
    Ok(i)
}
