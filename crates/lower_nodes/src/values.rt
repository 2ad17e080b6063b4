ghost use Rattle.flow.specs.Limits.{node_limit};
ghost use Rattle.std.specs.Prelude.{IfOk, length, ◌≤◌, ◌+◌};
ghost use Rattle.lower_relation.specs.Paths.{Stuck};
ghost use Rattle.lower_relation.specs.Values.{Converts, ConvertsBelow, HandedOverAs, LoadAt};
ghost use Rattle.lower_nodes.specs.Made.{Made, MadeAlone};

use crate::graph::Graph;
use c_meaning::{Conversion, ValueType};
use cbi_base::{Kind, Memory, Unary, Want};
use flow::Node;

/// Nodes that no run of a checked text comes to; `next` is where they would go on.
#[tactic(auto, using(crate::proofs::Building::stuck_made))]
pub fn put_stuck(graph: &mut Graph, next: u32) -> Result<u32, Memory>
    requires room { length graph.old + 2 ≤ node_limit }
    ensures made { IfOk result (λ i. MadeAlone (λ G. Stuck G) graph.old graph.new i next) }
    ensures few { IfOk result (λ i. length graph.new ≤ length graph.old + 2) }
{
    let exit = graph.put(Node::Exit)?;
    let push = graph.put(Node::Push {
        kind: Kind::Char,
        value: 0,
        next: exit,
    })?;
    Ok(push)
}

/// The value on top is converted.
#[tactic(auto, using(crate::proofs::Building::parts_made))]
pub fn put_conversion(graph: &mut Graph, conversion: Conversion, next: u32) -> Result<u32, Memory>
    requires room { length graph.old + 2 ≤ node_limit }
    ensures made { IfOk result (λ i. Made (λ G. Converts G conversion) graph.old graph.new i next) }
    ensures few { IfOk result (λ i. length graph.new ≤ length graph.old + 2) }
{
    match conversion {
        Conversion::Keep => Ok(next),
        Conversion::To { kind } => {
            let i = graph.put(Node::Convert { kind, next })?;
            Ok(i)
        }
        Conversion::Misfit => {
            let i = put_stuck(graph, next)?;
            Ok(i)
        }
    }
}

/// The value below it is converted.
#[tactic(auto, using(crate::proofs::Building::parts_made))]
pub fn put_conversion_below(
    graph: &mut Graph,
    conversion: Conversion,
    next: u32,
) -> Result<u32, Memory>
    requires room { length graph.old + 3 ≤ node_limit }
    ensures made { IfOk result (λ i. Made (λ G. ConvertsBelow G conversion) graph.old graph.new i next) }
    ensures few { IfOk result (λ i. length graph.new ≤ length graph.old + 3) }
{
    match conversion {
        Conversion::Keep => Ok(next),
        Conversion::To { kind } => {
            let back = graph.put(Node::Swap { next })?;
            let converted = graph.put(Node::Convert { kind, next: back })?;
            let i = graph.put(Node::Swap { next: converted })?;
            Ok(i)
        }
        Conversion::Misfit => {
            let i = put_stuck(graph, next)?;
            Ok(i)
        }
    }
}

/// A value is handed over as one of the type.
#[tactic(auto, using(crate::proofs::Building::parts_made))]
pub fn put_handed(graph: &mut Graph, want: Option<ValueType>, next: u32) -> Result<u32, Memory>
    requires room { length graph.old + 3 ≤ node_limit }
    ensures made { IfOk result (λ i. Made (λ G. HandedOverAs G want) graph.old graph.new i next) }
    ensures few { IfOk result (λ i. length graph.new ≤ length graph.old + 3) }
{
    match want {
        Some(ValueType::Number { kind }) => {
            let i = graph.put(Node::Convert { kind, next })?;
            Ok(i)
        }
        Some(ValueType::Pointer { .. }) => {
            let drop = graph.put(Node::Drop { next })?;
            let test = graph.put(Node::Sole {
                op: Unary::Not,
                next: drop,
            })?;
            let i = graph.put(Node::Dup { next: test })?;
            Ok(i)
        }
        _ => {
            let i = put_stuck(graph, next)?;
            Ok(i)
        }
    }
}

/// The value of a place of the type.
#[tactic(auto, using(crate::proofs::Building::parts_made))]
pub fn put_load(graph: &mut Graph, of: Option<ValueType>, next: u32) -> Result<u32, Memory>
    requires room { length graph.old + 2 ≤ node_limit }
    ensures made { IfOk result (λ i. Made (λ G. LoadAt G of) graph.old graph.new i next) }
    ensures few { IfOk result (λ i. length graph.new ≤ length graph.old + 2) }
{
    match of {
        Some(ValueType::Number { kind }) => {
            let i = graph.put(Node::Load {
                want: Want::Number { kind },
                next,
            })?;
            Ok(i)
        }
        Some(ValueType::Pointer { .. }) => {
            let i = graph.put(Node::Load {
                want: Want::Pointer,
                next,
            })?;
            Ok(i)
        }
        Some(ValueType::Array { .. }) => Ok(next),
        _ => {
            let i = put_stuck(graph, next)?;
            Ok(i)
        }
    }
}
