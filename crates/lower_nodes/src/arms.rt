ghost use Rattle.flow.specs.Limits.{node_limit};
ghost use Rattle.std.specs.Prelude.{◌≡◌, IfOk, length, ◌≤◌, ◌+◌};
ghost use Rattle.c_meaning.specs.Words.{as_used, is_other_pointer};
ghost use Rattle.lower_relation.specs.Operators.{TruthAsInt};
ghost use Rattle.lower_relation.specs.Values.{ArmAs};
ghost use Rattle.lower_nodes.specs.Made.{Made};

use crate::changes::put_converted;
use crate::graph::Graph;
use crate::values::put_handed;
use c_meaning::{ValueType, as_used};
use cbi_base::{Memory, Unary};
use flow::Node;

/// Whether a pointer is used as one of another type.
fn is_other_pointer(have: Option<ValueType>, want: Option<ValueType>) -> bool
    ensures { result ≡ is_other_pointer have want }
{
    match (have, want) {
        (Some(ValueType::Pointer { size }), Some(ValueType::Pointer { size: wanted })) => {
            size != wanted
        }
        _ => false,
    }
}

/// The value of an arm of `? :` becomes one of the type of the whole.
#[tactic(auto, using(crate::proofs::Building::parts_made))]
pub fn put_arm(
    graph: &mut Graph,
    have: Option<ValueType>,
    want: Option<ValueType>,
    next: u32,
) -> Result<u32, Memory>
    requires room { length graph.old + 3 ≤ node_limit }
    ensures made { IfOk result (λ i. Made (λ G. ArmAs G (is_other_pointer (as_used have) want) have want) graph.old graph.new i next) }
    ensures few { IfOk result (λ i. length graph.new ≤ length graph.old + 3) }
{
    if is_other_pointer(as_used(have), want) {
        let i = put_handed(graph, want, next)?;
        return Ok(i);
    }
    let i = put_converted(graph, have, want, next)?;
    Ok(i)
}

/// 1 where a value is true, else 0.
#[tactic(auto, using(crate::proofs::Building::parts_made))]
pub fn put_flagged(graph: &mut Graph, next: u32) -> Result<u32, Memory>
    requires room { length graph.old + 2 ≤ node_limit }
    ensures made { IfOk result (λ i. Made (λ G. TruthAsInt G) graph.old graph.new i next) }
    ensures few { IfOk result (λ i. length graph.new ≤ length graph.old + 2) }
{
    let second = graph.put(Node::Sole {
        op: Unary::Not,
        next,
    })?;
    let i = graph.put(Node::Sole {
        op: Unary::Not,
        next: second,
    })?;
    Ok(i)
}
