ghost use Rattle.std.specs.Prelude.{◌≡◌};
ghost use Rattle.flow.specs.Words.{listed_ways, view};
ghost use Rattle.regions.specs.Flags.{is_in};
ghost use Rattle.copied_nodes.specs.Outlets.{is_last, is_outlet, is_debt_paid};

use flow::{Node, View, Ways, successors, view_of};
use regions::is_in;

/// Whether control leaves the function at a node, or calls a weighty one.
pub fn is_outlet(weighty: &[bool], node: Node) -> bool
    ensures { result ≡ is_outlet (is_in weighty.now) (view node) }
{
    match view_of(node) {
        View::Gives | View::Quits => true,
        View::Calls { function, .. } => is_in(weighty, function),
        _ => false,
    }
}

/// Whether control leaves the block after a node that leads to these.
fn is_last(starts: &[bool], ways: Ways) -> bool
    ensures { result ≡ is_last (is_in starts.now) (listed_ways ways) }
{
    match ways {
        Ways::None => true,
        Ways::One { next } => is_in(starts, next),
        Ways::Two { first, second } => is_in(starts, first) || is_in(starts, second),
    }
}

/// Whether what is owed is paid by a node of its own before this one.
pub fn pays(starts: &[bool], owed: u32, node: Node) -> bool
    ensures { result ≡ is_debt_paid (is_in starts.now) owed (view node) }
{
    if let View::Marks { .. } = view_of(node) {
        return false;
    }
    owed > 0 && is_last(starts, successors(node))
}
