ghost use Rattle.flow.specs.Limits.{node_limit};
ghost use Rattle.std.specs.Prelude.{IfOk, length, ◌≤◌, ◌+◌};
ghost use Rattle.lower_relation.specs.Operators.{Member, Operates, Variable};
ghost use Rattle.c_meaning.specs.declared.operation.Operation.TheVariants.{Numbers};
ghost use Rattle.lower_nodes.specs.Made.{Made};

use crate::graph::Graph;
use crate::values::{put_conversion, put_conversion_below, put_stuck};
use c_meaning::{Operation, between, left_kind, right_kind};
use cbi_base::{Binary, Kind, Memory, Want};
use flow::{Node, Slot};

/// What is done with two numbers: they are converted, the right one first put, since the nodes grow backwards, and then calculated with.
fn put_numbers(
    graph: &mut Graph,
    op: Binary,
    left: Kind,
    right: Kind,
    next: u32,
) -> Result<u32, Memory>
    requires room { length graph.old + 6 ≤ node_limit }
    ensures made { IfOk result (λ i. Made (λ G. Operates G (Numbers op left right)) graph.old graph.new i next) }
    ensures few { IfOk result (λ i. length graph.new ≤ length graph.old + 6) }
{
    let math = graph.put(Node::Math { op, next })?;
    let converted = put_conversion(graph, between(right, right_kind(op, left, right)), math)?;
    let i = put_conversion_below(graph, between(left, left_kind(op, left, right)), converted)?;
    Ok(i)
}

/// What is done with two values, the right one on top.
#[tactic(auto, using(crate::proofs::Building::parts_made))]
pub fn put_operation(graph: &mut Graph, operation: Operation, next: u32) -> Result<u32, Memory>
    requires room { length graph.old + 6 ≤ node_limit }
    ensures made { IfOk result (λ i. Made (λ G. Operates G operation) graph.old graph.new i next) }
    ensures few { IfOk result (λ i. length graph.new ≤ length graph.old + 6) }
{
    match operation {
        Operation::Numbers { op, left, right } => {
            let i = put_numbers(graph, op, left, right, next)?;
            Ok(i)
        }
        Operation::MoveLeft { size } => {
            let i = graph.put(Node::Move { size, next })?;
            Ok(i)
        }
        Operation::MoveRight { size } => {
            let moved = graph.put(Node::Move { size, next })?;
            let i = graph.put(Node::Swap { next: moved })?;
            Ok(i)
        }
        Operation::Span { size } => {
            let i = graph.put(Node::Span { size, next })?;
            Ok(i)
        }
        Operation::Ordered { order } => {
            let i = graph.put(Node::Order { op: order, next })?;
            Ok(i)
        }
        Operation::Wrong => {
            let i = put_stuck(graph, next)?;
            Ok(i)
        }
    }
}

/// The object of a variable.
#[tactic(auto, using(crate::proofs::Building::parts_made))]
pub fn put_variable(graph: &mut Graph, slot: Option<Slot>, next: u32) -> Result<u32, Memory>
    requires room { length graph.old + 2 ≤ node_limit }
    ensures made { IfOk result (λ i. Made (λ G. Variable G slot) graph.old graph.new i next) }
    ensures few { IfOk result (λ i. length graph.new ≤ length graph.old + 2) }
{
    match slot {
        Some(Slot::Local { index }) => {
            let i = graph.put(Node::Local { index, next })?;
            Ok(i)
        }
        Some(Slot::Global { index }) => {
            let i = graph.put(Node::Global { index, next })?;
            Ok(i)
        }
        None => {
            let i = put_stuck(graph, next)?;
            Ok(i)
        }
    }
}

/// A member, or an element, of the object at a place.
#[tactic(auto, using(crate::proofs::Building::parts_made))]
pub fn put_member(graph: &mut Graph, offset: Option<u32>, next: u32) -> Result<u32, Memory>
    requires room { length graph.old + 2 ≤ node_limit }
    ensures made { IfOk result (λ i. Made (λ G. Member G offset) graph.old graph.new i next) }
    ensures few { IfOk result (λ i. length graph.new ≤ length graph.old + 2) }
{
    match offset {
        Some(offset) => {
            let i = graph.put(Node::Member { offset, next })?;
            Ok(i)
        }
        None => {
            let i = put_stuck(graph, next)?;
            Ok(i)
        }
    }
}
