ghost use Rattle.std.specs.Prelude.{◌≡◌, ◌≤◌, IfOk, length};
ghost use Rattle.flow.specs.Words.{node_limit, led_to, view};
ghost use Rattle.regions.specs.Blocks.{IsStart};
ghost use Rattle.regions.specs.Flags.{AreFlags, is_in};
ghost use Rattle.regions.specs.Weighty.{views_of};
ghost use Rattle.weights.specs.Paths.{mark_count};
ghost use Rattle.clone_paths.specs.Parts.{AreDebts, HasOrder, next_inside};

use cbi_base::Memory;
use flow::{Node, View, Ways, successors, view_of};
use regions::is_in;
use std::alloc::Global;

/// The one node to which a node leads within its block, where it leads to one there.
fn next_inside(starts: &[bool], node: Node) -> Option<u32>
    ensures { result ≡ next_inside (is_in starts.now) (led_to (view node)) }
{
    match successors(node) {
        Ways::One { next } if !is_in(starts, next) => Some(next),
        _ => None,
    }
}

/// How many visits of sites a node is: one or none.
fn mark_count(node: Node) -> u32
    ensures { result ≡ mark_count (view node) }
{
    match view_of(node) {
        View::Marks { .. } => 1,
        _ => 0,
    }
}

/// The visits of sites since each node's block began: within a block only the node before leads to a node.
pub(crate) fn debts_of(alloc: Global, nodes: &[Node], starts: &[bool]) -> Result<Vec<u32>, Memory>
    requires few { length nodes.now ≤ node_limit }
    requires order { HasOrder nodes.now }
    requires starts { AreFlags (length nodes.now) (IsStart (views_of nodes.now)) starts.now }
    ensures { IfOk result (λ debts. AreDebts nodes.now starts.now debts.items) }
{
    let mut debts = vec![in alloc; 0u32; nodes.len()]?;
    for place in 0..nodes.len() {
        let node = nodes[place];
        if let Some(next) = next_inside(starts, node) {
            debts[next as usize] = debts[place] + mark_count(node);
        }
    }
    Ok(debts)
}
