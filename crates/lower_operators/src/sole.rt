ghost use Rattle.flow.specs.Limits.{node_limit};
ghost use Rattle.std.specs.Prelude.{IfOk, length, ◌≤◌, ◌+◌};
ghost use Rattle.lower_relation.specs.Operators.{OneOperand};
ghost use Rattle.lower_nodes.specs.Made.{Made};
ghost use Rattle.lower_facts.specs.Facts.{facts_in};

use c_meaning::ValueType;
use cbi_base::{Memory, Unary};
use flow::Node;
use lower_facts::TreeFacts;
use lower_nodes::{Graph, put_converted};

/// A value is converted to the type at the token, and then calculated with.
#[tactic(auto, using(lower_nodes::proofs::Building::parts_made))]
pub fn put_sole(
    graph: &mut Graph,
    facts: &TreeFacts,
    token: u32,
    of: Option<ValueType>,
    op: Unary,
    next: u32,
) -> Result<u32, Memory>
    requires room { length graph.old + 3 ≤ node_limit }
    ensures made { IfOk result (λ i. Made (λ G. OneOperand G of ((facts_in facts.now).type_at token) op) graph.old graph.new i next) }
    ensures few { IfOk result (λ i. length graph.new ≤ length graph.old + 3) }
{
    let sole = graph.put(Node::Sole { op, next })?;
    let want = facts.type_at(token);
    let i = put_converted(graph, of, want, sole)?;
    Ok(i)
}
