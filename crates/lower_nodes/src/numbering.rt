ghost use Rattle.std.specs.Prelude.{◌≡◌, ◌≤◌, ◌-◌, IfOk, length};
ghost use Rattle.flow.specs.Words.{node_limit, view};
ghost use Rattle.lower_relation.specs.Stands.{renumbered_view};
ghost use Rattle.lower_nodes.specs.Finished.{Finished, turned_number};
ghost use Rattle.lower_nodes.specs.Made.{LeadBack};
ghost use Rattle.lower_nodes.specs.Reach.{LeadOn};

use crate::graph::Graph;
use cbi_base::Memory;
use flow::{Node, Ways, successors, with_next};
use std::alloc::Global;

/// The node with the other numbers of its successors: they are counted from the last one down.
fn renumbered(node: Node, last: u32) -> Node
    ensures { view result ≡ renumbered_view (turned_number last) (view node) }
{
    match node {
        Node::Fork { yes, no } => Node::Fork {
            yes: last.saturating_sub(yes),
            no: last.saturating_sub(no),
        },
        Node::Choose { weight, fast, slow } => Node::Choose {
            weight,
            fast: last.saturating_sub(fast),
            slow: last.saturating_sub(slow),
        },
        _ => match successors(node) {
            Ways::One { next } => with_next(node, last.saturating_sub(next)),
            _ => node,
        },
    }
}

/// The nodes of a graph in the order of the program: the last one that was put is the first. They are no more than a program may have.
pub fn finish(alloc: Global, graph: &Graph) -> Result<Vec<Node>, Memory>
    ensures finished { IfOk result (λ nodes. Finished graph.now nodes.items (turned_number (length graph.now - 1))) }
    ensures as_many { IfOk result (λ nodes. length nodes.items ≡ length graph.now) }
    ensures most { IfOk result (λ nodes. length nodes.items ≤ node_limit) }
    ensures leads { IfOk result (λ nodes. LeadBack 0 graph.now → LeadOn nodes.items) }
{
    let nodes = graph.nodes();
    let mut finished = Vec::with_capacity(alloc, nodes.len())?;
    let last = nodes.len().saturating_sub(1) as u32;
    for i in (0..nodes.len()).rev() {
        let node = nodes[i];
        finished.push(renumbered(node, last))?;
    }
    Ok(finished)
}
