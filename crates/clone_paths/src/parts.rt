ghost use Rattle.std.specs.Prelude.{◌≡◌};
ghost use Rattle.flow.specs.Words.{view};
ghost use Rattle.regions.specs.Flags.{is_in};
ghost use Rattle.clone_paths.specs.Parts.{is_inside, outlet_of, part_of_node};

use copied_nodes::pays;
use flow::{Node, View, view_of};
use regions::is_in;

/// How control leaves a function at a node, where it does.
#[derive(Clone, Copy)]
pub(crate) enum Outlet {
    None,
    /// The function is left.
    Leaves,
    /// A weighty function is called, and control goes on at this node.
    Calls { next: u32 },
}

/// What the clones need to know of a node.
#[derive(Clone, Copy)]
pub(crate) struct Part {
    /// It is a visit of a site within a block.
    pub inside: bool,
    /// How many visits its block had before it.
    pub owed: u32,
    /// What is owed is paid before it.
    pub pays: bool,
    pub outlet: Outlet,
}

/// How control leaves the function at a node.
fn outlet_of(weighty: &[bool], node: Node) -> Outlet
    ensures { result ≡ outlet_of (is_in weighty.now) (view node) }
{
    match view_of(node) {
        View::Gives | View::Quits => Outlet::Leaves,
        View::Calls { function, next } if is_in(weighty, function) => Outlet::Calls { next },
        _ => Outlet::None,
    }
}

/// Whether a node is a visit of a site within a block.
pub(crate) fn is_inside(starts: &[bool], node: Node) -> bool
    ensures { result ≡ is_inside (is_in starts.now) (view node) }
{
    match view_of(node) {
        View::Marks { next, .. } => !is_in(starts, next),
        _ => false,
    }
}

/// What the clones need to know of a node before which so much is owed.
pub(crate) fn part_of(weighty: &[bool], starts: &[bool], owed: u32, node: Node) -> Part
    ensures { result ≡ part_of_node (is_in weighty.now) (is_in starts.now) owed (view node) }
{
    Part {
        inside: is_inside(starts, node),
        owed,
        pays: pays(starts, owed, node),
        outlet: outlet_of(weighty, node),
    }
}
