ghost use Rattle.flow.specs.Limits.{node_limit};
ghost use Rattle.std.specs.Prelude.{◌≡◌, IfOk, length, ◌≤◌, ◌+◌};
ghost use Rattle.lower_nodes.specs.Purposes.{PurposeTakes, TakesPlace, TakesThrough, is_single};
ghost use Rattle.lower_relation.specs.Operators.{LoadThrough, PointerPlace};
ghost use Rattle.lower_relation.specs.Values.{DiscardedPlace};
ghost use Rattle.c_meaning.specs.Expressions.{is_struct_value};
ghost use Rattle.lower_nodes.specs.Made.{Made, MadeFor};

use crate::graph::Graph;
use crate::values::{put_load, put_stuck};
use c_meaning::ValueType;
use cbi_base::{Memory, Want};
use flow::Node;

/// What becomes of the value of an expression.
#[derive(Clone, Copy, Debug)]
pub enum Purpose {
    /// The node takes it.
    Value { next: u32 },
    /// Nothing takes it, and control goes on at the node.
    Effect { next: u32 },
    /// Its truth says where control goes on.
    Truth { yes: u32, no: u32 },
}

/// What becomes of a value on top.
#[tactic(auto, using(crate::proofs::Taking::takes_made))]
pub fn put_taken(graph: &mut Graph, purpose: Purpose) -> Result<u32, Memory>
    requires room { length graph.old + 1 ≤ node_limit }
    ensures made { IfOk result (λ i. MadeFor (λ G. PurposeTakes G) graph.old graph.new i purpose) }
    ensures few { IfOk result (λ i. length graph.new ≤ length graph.old + 1) }
{
    match purpose {
        Purpose::Value { next } => Ok(next),
        Purpose::Effect { next } => {
            let i = graph.put(Node::Drop { next })?;
            Ok(i)
        }
        Purpose::Truth { yes, no } => {
            let i = graph.put(Node::Fork { yes, no })?;
            Ok(i)
        }
    }
}

/// Whether the type is that of a struct.
fn is_struct(of: Option<ValueType>) -> bool
    ensures { result ≡ is_struct_value of }
{
    matches!(of, Some(ValueType::Struct))
}

/// A place whose value isn't taken.
#[tactic(auto, using(crate::proofs::Building::parts_made))]
fn put_discarded(graph: &mut Graph, of: Option<ValueType>, next: u32) -> Result<u32, Memory>
    requires room { length graph.old + 3 ≤ node_limit }
    ensures made { IfOk result (λ i. Made (λ G. DiscardedPlace G (is_struct_value of) of) graph.old graph.new i next) }
    ensures few { IfOk result (λ i. length graph.new ≤ length graph.old + 3) }
{
    let drop = graph.put(Node::Drop { next })?;
    if is_struct(of) {
        return Ok(drop);
    }
    let i = put_load(graph, of, drop)?;
    Ok(i)
}

/// What becomes of the value of a place on top.
#[tactic(auto, using(crate::proofs::Taking::places_made))]
pub fn put_taken_place(
    graph: &mut Graph,
    of: Option<ValueType>,
    purpose: Purpose,
) -> Result<u32, Memory>
    requires room { length graph.old + 3 ≤ node_limit }
    ensures made { IfOk result (λ i. MadeFor (λ G. TakesPlace G of) graph.old graph.new i purpose) }
    ensures few { IfOk result (λ i. length graph.new ≤ length graph.old + 3) }
{
    match purpose {
        Purpose::Value { next } => {
            let i = put_load(graph, of, next)?;
            Ok(i)
        }
        Purpose::Effect { next } => {
            let i = put_discarded(graph, of, next)?;
            Ok(i)
        }
        Purpose::Truth { yes, no } => {
            let fork = graph.put(Node::Fork { yes, no })?;
            let i = put_load(graph, of, fork)?;
            Ok(i)
        }
    }
}

/// A pointer becomes a place where it isn't null.
#[tactic(auto, using(crate::proofs::Taking::pointers_made))]
pub fn put_pointed(graph: &mut Graph, next: u32) -> Result<u32, Memory>
    requires room { length graph.old + 3 ≤ node_limit }
    ensures made { IfOk result (λ i. Made (λ G. PointerPlace G) graph.old graph.new i next) }
    ensures few { IfOk result (λ i. length graph.new ≤ length graph.old + 3) }
{
    let trap = graph.put(Node::Load {
        want: Want::Pointer,
        next,
    })?;
    let fork = graph.put(Node::Fork {
        yes: next,
        no: trap,
    })?;
    let i = graph.put(Node::Dup { next: fork })?;
    Ok(i)
}

/// Whether one load of a pointer to the type looks at the pointer as well.
fn is_single(of: Option<ValueType>) -> bool
    ensures { result ≡ is_single of }
{
    matches!(
        of,
        Some(ValueType::Number { .. }) | Some(ValueType::Pointer { .. })
    )
}

/// The value at a pointer.
#[tactic(auto, using(crate::proofs::Taking::loads_made))]
fn put_load_through(graph: &mut Graph, of: Option<ValueType>, next: u32) -> Result<u32, Memory>
    requires room { length graph.old + 5 ≤ node_limit }
    ensures made { IfOk result (λ i. Made (λ G. LoadThrough G of) graph.old graph.new i next) }
    ensures few { IfOk result (λ i. length graph.new ≤ length graph.old + 5) }
{
    let load = put_load(graph, of, next)?;
    if is_single(of) {
        return Ok(load);
    }
    let i = put_pointed(graph, load)?;
    Ok(i)
}

/// What becomes of the value at a pointer on top.
#[tactic(auto, using(crate::proofs::Taking::pointers_made))]
pub fn put_taken_through(
    graph: &mut Graph,
    of: Option<ValueType>,
    purpose: Purpose,
) -> Result<u32, Memory>
    requires room { length graph.old + 6 ≤ node_limit }
    ensures made { IfOk result (λ i. MadeFor (λ G. TakesThrough G of) graph.old graph.new i purpose) }
    ensures few { IfOk result (λ i. length graph.new ≤ length graph.old + 6) }
{
    match purpose {
        Purpose::Value { next } => {
            let i = put_load_through(graph, of, next)?;
            Ok(i)
        }
        Purpose::Effect { next } => {
            let discarded = put_discarded(graph, of, next)?;
            let i = put_pointed(graph, discarded)?;
            Ok(i)
        }
        Purpose::Truth { yes, no } => {
            let fork = graph.put(Node::Fork { yes, no })?;
            let i = put_load_through(graph, of, fork)?;
            Ok(i)
        }
    }
}
