ghost use Rattle.std.specs.Prelude.{◌≡◌, ◌↔◌, ◌≤◌, ◌&&◌, ◌||◌, nat_lt, length, IsTrue};
ghost use Rattle.cbi_base.specs.Kind.{lies_in};
ghost use Rattle.flow.specs.Limits.{node_limit};
ghost use Rattle.flow.specs.View.{view};
ghost use Rattle.flow.specs.Nodes.{NodesFit, is_format, is_node_step, is_own, leads_rightly, names_fit, node_fits};

use crate::node::{Node, View, Ways, successors, view_of};
use cbi_base::{Kind, Seq};

/// The most cells by which a pointer is moved at once.
const STEP_LIMIT: u32 = 1_048_576;

/// The most nodes of a program, and the most by which a countdown is lowered at once.
pub const NODE_LIMIT: u32 = 16_000_000;

/// What the nodes of any function of a program may name: the number of each text's conversions as a format (none where it is no format), how
/// many globals and functions there are, and the function of each site.
#[derive(Debug, Drop)]
pub struct Names {
    pub conversions: Seq<Option<u32>>,
    pub globals: u32,
    pub functions: u32,
    pub owners: Seq<u32>,
}

/// What the nodes of one function may name besides: the function's number, and how many locals and nodes it has.
#[derive(Clone, Copy, Debug)]
pub struct Bounds {
    pub function: u32,
    pub locals: u32,
    pub nodes: u32,
}

/// Whether the number lies in the kind's range.
pub(crate) fn lies_in(kind: Kind, value: i64) -> bool
    ensures { result ≡ lies_in kind value }
{
    match kind {
        Kind::Char => (-128..=127).contains(&value),
        Kind::Int => (-2147483648..=2147483647).contains(&value),
        Kind::Unsigned => (0..=4294967295).contains(&value),
    }
}

fn is_step(cells: i32) -> bool
    ensures { result ≡ is_node_step cells }
{
    let most = STEP_LIMIT as i32;
    (-most..=most).contains(&cells) && cells != 0
}

fn is_format(conversions: Option<Option<u32>>, count: u32) -> bool
    ensures { result ≡ is_format conversions count }
{
    match conversions {
        Some(Some(conversions)) => conversions == count,
        _ => false,
    }
}

fn is_own(bounds: Bounds, owner: Option<u32>) -> bool
    ensures { result ≡ is_own bounds owner }
{
    match owner {
        Some(owner) => owner == bounds.function,
        None => false,
    }
}

/// Whether what a node names exists, and its numbers lie in their ranges.
#[tactic(auto, unfolding(crate::specs::Nodes::names_fit))]
pub fn names_fit(names: &Names, bounds: Bounds, node: Node) -> bool
    ensures { result ≡ names_fit names.now bounds node }
{
    let texts = names.conversions.as_slice();
    let owners = names.owners.as_slice();
    match node {
        Node::Push { kind, value, .. } => lies_in(kind, value),
        Node::Local { index, .. } | Node::Clear { index, .. } | Node::Zero { index, .. } => {
            index < bounds.locals
        }
        Node::Global { index, .. } => index < names.globals,
        Node::Text { index, .. } => (index as usize) < texts.len(),
        Node::Move { size, .. } => is_step(size),
        Node::Member { offset, .. } => offset <= STEP_LIMIT,
        Node::Span { size, .. } => 1 <= size && size <= STEP_LIMIT,
        Node::Call { function, .. } => function < names.functions,
        Node::Format { text, count, .. } => is_format(texts.get(text as usize).copied(), count),
        Node::Spell { index, text, .. } => index < bounds.locals && (text as usize) < texts.len(),
        Node::Mark { site, .. } | Node::Test { site, .. } => {
            is_own(bounds, owners.get(site as usize).copied())
        }
        Node::Skip { by, .. } => 1 <= by && by <= NODE_LIMIT,
        Node::Choose { weight, .. } => weight <= NODE_LIMIT,
        _ => true,
    }
}

fn leads_to(bounds: Bounds, place: u32, again: bool, next: u32) -> bool
    ensures { result ≡ (nat_lt next bounds.nodes && (again || nat_lt place next)) }
{
    next < bounds.nodes && (again || place < next)
}

/// Whether a node leads to nodes of the function, which are later ones but after `again`.
#[tactic(auto, unfolding(crate::specs::Nodes::leads_rightly))]
fn leads_rightly(bounds: Bounds, place: u32, node: Node) -> bool
    ensures { result ≡ leads_rightly bounds place (view node) }
{
    let again = matches!(view_of(node), View::Turns { .. });
    match successors(node) {
        Ways::None => true,
        Ways::One { next } => leads_to(bounds, place, again, next),
        Ways::Two { first, second } => {
            leads_to(bounds, place, again, first) && leads_to(bounds, place, again, second)
        }
    }
}

/// Whether a node may stand at this place of a function.
#[tactic(auto, unfolding(crate::specs::Nodes::node_fits))]
pub fn node_fits(names: &Names, bounds: Bounds, place: u32, node: Node) -> bool
    ensures { result ≡ node_fits names.now bounds place node }
{
    names_fit(names, bounds, node) && leads_rightly(bounds, place, node)
}

// The nodes are few enough that a place among them is a number of 32 bits.
pub(crate) fn nodes_fit(names: &Names, bounds: Bounds, nodes: &[Node]) -> bool
    requires { length nodes.now ≤ node_limit }
    ensures { IsTrue result ↔ NodesFit names.now bounds nodes.now }
{
    for (place, node) in nodes.iter().enumerate() {
        if !node_fits(names, bounds, place as u32, *node) {
            return false;
        }
    }
    true
}
