ghost use Rattle.flow.specs.Limits.{node_limit};
ghost use Rattle.std.specs.Prelude.{◌≡◌, IfOk, length, ◌≤◌, ◌+◌};
ghost use Rattle.flow.specs.declared.node.Node.TheVariants as node;
ghost use Rattle.lower_relation.specs.Expressions.{TextPlace};
ghost use Rattle.lower_relation.specs.Operators.{SizeValue, Variable};
ghost use Rattle.lower_relation.specs.Paths.{Does};
ghost use Rattle.lower_relation.specs.Values.{EmittedPlace, EmittedValue};
ghost use Rattle.lower_nodes.specs.Made.{MadeFor};
ghost use Rattle.lower_nodes.specs.Purposes.{Serves};

use crate::graph::Graph;
use crate::operators::put_variable;
use crate::purpose::{Purpose, put_taken, put_taken_place};
use crate::values::put_stuck;
use c_meaning::ValueType;
use cbi_base::{Kind, Memory};
use flow::{Node, Slot};

/// A constant.
#[tactic(auto, using(crate::proofs::Serving::leaves_made))]
pub fn put_constant(
    graph: &mut Graph,
    kind: Kind,
    value: i64,
    purpose: Purpose,
) -> Result<u32, Memory>
    requires room { length graph.old + 2 ≤ node_limit }
    ensures made { IfOk result (λ i. MadeFor (λ G. Serves (EmittedValue G (Does G (node.Push kind value 0)))) graph.old graph.new i purpose) }
    ensures few { IfOk result (λ i. length graph.new ≤ length graph.old + 2) }
{
    let next = put_taken(graph, purpose)?;
    let i = graph.put(Node::Push { kind, value, next })?;
    Ok(i)
}

/// A null pointer.
#[tactic(auto, using(crate::proofs::Serving::leaves_made))]
pub fn put_null(graph: &mut Graph, purpose: Purpose) -> Result<u32, Memory>
    requires room { length graph.old + 2 ≤ node_limit }
    ensures made { IfOk result (λ i. MadeFor (λ G. Serves (EmittedValue G (Does G (node.Null 0)))) graph.old graph.new i purpose) }
    ensures few { IfOk result (λ i. length graph.new ≤ length graph.old + 2) }
{
    let next = put_taken(graph, purpose)?;
    let i = graph.put(Node::Null { next })?;
    Ok(i)
}

/// The object of the string with this number.
pub fn put_text(graph: &mut Graph, number: Option<u32>, purpose: Purpose) -> Result<u32, Memory>
    requires room { length graph.old + 3 ≤ node_limit }
    ensures made { IfOk result (λ i. MadeFor (λ G. Serves (EmittedValue G (TextPlace G number))) graph.old graph.new i purpose) }
    ensures few { IfOk result (λ i. length graph.new ≤ length graph.old + 3) }
{
    let next = put_taken(graph, purpose)?;
    match number {
        None => {
            let i = put_stuck(graph, next)?;
            Ok(i)
        }
        Some(number) => {
            let i = graph.put(Node::Text {
                index: number,
                next,
            })?;
            Ok(i)
        }
    }
}

/// How many cells an object has.
pub fn put_size(graph: &mut Graph, cells: Option<u32>, purpose: Purpose) -> Result<u32, Memory>
    requires room { length graph.old + 3 ≤ node_limit }
    ensures made { IfOk result (λ i. MadeFor (λ G. Serves (SizeValue G cells)) graph.old graph.new i purpose) }
    ensures few { IfOk result (λ i. length graph.new ≤ length graph.old + 3) }
{
    let next = put_taken(graph, purpose)?;
    match cells {
        None => {
            let i = put_stuck(graph, next)?;
            Ok(i)
        }
        Some(cells) => {
            let i = graph.put(Node::Push {
                kind: Kind::Unsigned,
                value: cells as i64,
                next,
            })?;
            Ok(i)
        }
    }
}

/// A variable.
#[tactic(auto, using(crate::proofs::Serving::leaves_made))]
pub fn put_name(
    graph: &mut Graph,
    of: Option<ValueType>,
    slot: Option<Slot>,
    purpose: Purpose,
) -> Result<u32, Memory>
    requires room { length graph.old + 5 ≤ node_limit }
    ensures made { IfOk result (λ i. MadeFor (λ G. Serves (EmittedPlace G of (Variable G slot))) graph.old graph.new i purpose) }
    ensures few { IfOk result (λ i. length graph.new ≤ length graph.old + 5) }
{
    let next = put_taken_place(graph, of, purpose)?;
    let i = put_variable(graph, slot, next)?;
    Ok(i)
}
