ghost use Rattle.std.specs.Prelude.{◌≡◌, ◌<◌, ◌≤◌, ℕ, length, slice_index, Contains};
ghost use Rattle.flow.specs.Words.{node_limit, listed_ways, view};
ghost use Rattle.regions.specs.Flags.{is_in};
ghost use Rattle.weights.specs.Paths.{next_nodes};
ghost use Rattle.weights.specs.Weight.{greatest_weight, weight_from};

use flow::{Node, View, Ways, successors, view_of};
use regions::is_in;

/// The nodes to which a path may go on within its region.
pub fn next_nodes(weighty: &[bool], node: Node) -> Ways
    ensures { listed_ways result ≡ next_nodes (is_in weighty.now) (view node) }
{
    match view_of(node) {
        View::Turns { .. } => Ways::None,
        View::Calls { function, .. } if is_in(weighty, function) => Ways::None,
        _ => successors(node),
    }
}

/// The greatest weight of the nodes to which a path may go on.
fn weight_ahead(weights: &[u32], ways: Ways) -> u32
    requires { (next : ℕ) → Contains (listed_ways ways) next → next < length weights.now }
    ensures { result ≡ greatest_weight (λ next. slice_index weights.now next) (listed_ways ways) }
{
    match ways {
        Ways::None => 0,
        Ways::One { next } => weights[next as usize],
        Ways::Two { first, second } => weights[first as usize].max(weights[second as usize]),
    }
}

/// The weight of a node, from those of the nodes to which it leads.
pub(crate) fn weight_of(weights: &[u32], weighty: &[bool], node: Node) -> u32
    requires within { (next : ℕ) → Contains (next_nodes (is_in weighty.now) (view node)) next → next < length weights.now }
    requires small { greatest_weight (λ next. slice_index weights.now next) (next_nodes (is_in weighty.now) (view node)) ≤ node_limit }
    ensures { result ≡ weight_from (is_in weighty.now) (λ next. slice_index weights.now next) (view node) }
{
    let ahead = weight_ahead(weights, next_nodes(weighty, node));
    if matches!(view_of(node), View::Marks { .. }) {
        return ahead + 1;
    }
    ahead
}
