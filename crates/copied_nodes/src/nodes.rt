ghost use Rattle.std.specs.Prelude.{◌≡◌, ◌+◌, ◌<◌, length, slice_index};
ghost use Rattle.flow.specs.Words.{node_limit, view};
ghost use Rattle.copied_nodes.specs.Sheet.{place_in_copy, sheet_of};
ghost use Rattle.copied_nodes.specs.Made.{IsLabelOfNode, made_node, made_in, made_out, made_paid, made_same, made_visit, source_tables};

use crate::label::{CopyLabel, Side};
use crate::layout::Layout;
use crate::outlets::{is_outlet, pays};
use flow::{Node, View, view_of, with_next};

/// What is known of the nodes of a weighty function: which functions are weighty, where blocks begin, and the weights.
#[derive(Clone, Copy)]
pub struct Source<'a> {
    pub weighty: &'a [bool],
    pub nodes: &'a [Node],
    pub starts: &'a [bool],
    pub weights: &'a [u32],
}

/// A number of a table, which has none past its end.
pub fn at(table: &[u32], node: u32) -> u32
    ensures { result ≡ slice_index table.now node }
{
    table.get(node as usize).copied().unwrap_or(0)
}

/// Where a node stands in a copy.
fn place_of(layout: &Layout, side: Side, node: u32) -> u32
    ensures { result ≡ place_in_copy (sheet_of layout.now) side node }
{
    match side {
        Side::Fast => at(&layout.fast, node),
        Side::Slow => at(&layout.slow, node),
    }
}

/// The same node within the copy.
fn same_node(source: &Source, layout: &Layout, side: Side, node: Node) -> Node
    ensures { view result ≡ made_same (source_tables source.now (sheet_of layout.now)) side (view node) }
{
    match view_of(node) {
        View::Forks { yes, no } => Node::Fork {
            yes: place_of(layout, side, yes),
            no: place_of(layout, side, no),
        },
        View::Turns { next } => Node::Again {
            next: at(&layout.gates, next),
        },
        View::Row { next, .. } | View::Calls { next, .. } => {
            with_next(node, place_of(layout, side, next))
        }
        _ => node,
    }
}

/// The node for a visit of a site in a copy, where so much is owed.
fn visit_node(layout: &Layout, side: Side, owed: u32, site: u32, next: u32) -> Node
    requires { owed < node_limit }
    ensures { view result ≡ made_visit (sheet_of layout.now) side owed site next }
{
    let next = place_of(layout, side, next);
    match side {
        Side::Slow => Node::Test { site, next },
        Side::Fast => Node::Skip { by: owed + 1, next },
    }
}

/// The node of a copy at this place, where so much is owed.
fn copied_node(
    source: &Source,
    layout: &Layout,
    place: u32,
    side: Side,
    owed: u32,
    node: Node,
) -> Node
    requires place { place < node_limit }
    requires owed { owed < node_limit }
    ensures { view result ≡ made_in (source_tables source.now (sheet_of layout.now)) side owed place (view node) }
{
    match view_of(node) {
        View::Marks { site, next } => visit_node(layout, side, owed, site, next),
        _ => free_node(source, layout, place, side, owed, node),
    }
}

/// The node of a copy at this place, where it is no visit of a site.
fn free_node(
    source: &Source,
    layout: &Layout,
    place: u32,
    side: Side,
    owed: u32,
    node: Node,
) -> Node
    requires { place < node_limit }
    ensures { view result ≡ made_paid (source_tables source.now (sheet_of layout.now)) side owed place (view node) }
{
    let next = place + 1;
    if pays(source.starts, owed, node) {
        return Node::Skip { by: owed, next };
    }
    if is_outlet(source.weighty, node) {
        return Node::Export { next };
    }
    same_node(source, layout, side, node)
}

/// The outlet at this place.
fn out_node(place: u32, node: Node) -> Node
    requires { place < node_limit }
    ensures { view result ≡ made_out place (view node) }
{
    match view_of(node) {
        View::Calls { .. } => with_next(node, place + 1),
        _ => node,
    }
}

/// The node with this label at the place.
pub fn node_for(source: &Source, layout: &Layout, place: u32, label: CopyLabel) -> Node
    requires place { place < node_limit }
    requires of { IsLabelOfNode (length source.now.nodes.now) label }
    ensures { view result ≡ made_node (source_tables source.now (sheet_of layout.now)) place label }
{
    match label {
        CopyLabel::Enter => Node::Import {
            next: at(&layout.gates, 0),
        },
        CopyLabel::Gate { node } => Node::Choose {
            weight: at(source.weights, node),
            fast: at(&layout.fast, node),
            slow: at(&layout.slow, node),
        },
        CopyLabel::Back { node } => Node::Import {
            next: at(&layout.gates, node),
        },
        CopyLabel::In { side, node, owed } => {
            copied_node(
                source,
                layout,
                place,
                side,
                owed,
                source.nodes[node as usize],
            )
        }
        CopyLabel::Out { node, .. } => out_node(place, source.nodes[node as usize]),
    }
}
