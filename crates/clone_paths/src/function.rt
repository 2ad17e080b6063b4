ghost use Rattle.std.specs.Prelude.{◌≡◌, ◌*◌, ◌≤◌, ℕ, IfOk, length, slice_get, false, true};
ghost use Rattle.flow.specs.Words.{node_limit, view};
ghost use Rattle.regions.specs.Flags.{is_in};
ghost use Rattle.regions.specs.Rows.{EachFits};
ghost use Rattle.copied_nodes.specs.declared.label.CopyLabel.{CopyLabel};
ghost use Rattle.clone_paths.specs.Cloned.{FitsLike, FunctionCloned, NodesCloned, cloned_limit};
ghost use Rattle.clone_paths.specs.Layout.{sheet_of};
ghost use Rattle.clone_paths.specs.Made.{IsMade, IsLabelOfNode, Resolved, next_visited, parts_from, sheet_at};
ghost use Rattle.clone_paths.specs.Parts.{HasOrder};
ghost use Rattle.clone_paths.specs.Sources.{IsPrepared, source_tables};

use crate::debts::debts_of;
use crate::layout::{add_labels, first_labels};
use crate::parts::part_of;
use cbi_base::{Memory, Seq};
use copied_nodes::{Layout, Source, at, node_for};
use flow::{Function, Node, View, copy_of, view_of};
use regions::is_in;
use std::alloc::Global;

/// The labels for all nodes, in order.
fn lay_out(
    alloc: Global,
    source: &Source,
    headers: &[bool],
    debts: &[u32],
) -> Result<Layout, Memory>
    requires { length source.now.nodes.now ≤ cloned_limit }
    ensures { IfOk result (λ l. sheet_of l ≡
        sheet_at (is_in headers.now) (parts_from source.now.weighty.now source.now.nodes.now source.now.starts.now debts.now) (length source.now.nodes.now)) }
{
    let mut layout = first_labels(alloc)?;
    for (place, node) in source.nodes.iter().enumerate() {
        let number = place as u32;
        let part = part_of(source.weighty, source.starts, at(debts, number), *node);
        add_labels(&mut layout, is_in(headers, number), number, part)?;
    }
    Ok(layout)
}

/// The node to which a visit within a block leads.
fn next_visited(starts: &[bool], node: Node) -> Option<u32>
    ensures { result ≡ next_visited (is_in starts.now) (view node) }
{
    match view_of(node) {
        View::Marks { next, .. } if !is_in(starts, next) => Some(next),
        _ => None,
    }
}

/// Gives each visit within a block the place of the node after it, from the last one down.
fn resolve(fast: &mut [u32], nodes: &[Node], starts: &[bool])
    requires few { length fast.old ≡ length nodes.now }
    requires order { HasOrder nodes.now }
    ensures { Resolved starts.now nodes.now fast.old fast.new }
{
    for place in (0..nodes.len()).rev() {
        if let Some(next) = next_visited(starts, nodes[place]) {
            fast[place] = at(fast, next);
        }
    }
}

/// The nodes with these labels.
fn nodes_for(alloc: Global, source: &Source, layout: &Layout) -> Result<Vec<Node>, Memory>
    requires few { length layout.now.labels.items ≤ node_limit }
    requires of { (place : ℕ) (l : CopyLabel) → slice_get layout.now.labels.items place ≡ Some l → IsLabelOfNode (length source.now.nodes.now) l }
    ensures { IfOk result (λ nodes. EachFits (IsMade (source_tables source.now (sheet_of layout.now))) layout.now.labels.items nodes.items) }
{
    let mut nodes = Vec::with_capacity(alloc, layout.labels.len())?;
    for (place, label) in layout.labels.iter().enumerate() {
        nodes.push(node_for(source, layout, place as u32, *label))?;
    }
    Ok(nodes)
}

/// The nodes of a weighty function's copies.
fn clone_nodes(alloc: Global, source: &Source, headers: &[bool]) -> Result<Vec<Node>, Memory>
    requires { IsPrepared source.now headers.now }
    ensures cloned { IfOk result (λ nodes. NodesCloned (is_in source.now.weighty.now) source.now.nodes.now nodes.items) }
    ensures small { IfOk result (λ nodes. length nodes.items ≤ 8 * length source.now.nodes.now) }
    ensures fits { IfOk result (λ nodes. FitsLike source.now.nodes.now nodes.items) }
{
    let debts = debts_of(alloc, source.nodes, source.starts)?;
    let mut layout = lay_out(alloc, source, headers, &debts)?;
    resolve(&mut layout.fast, source.nodes, source.starts);
    let nodes = nodes_for(alloc, source, &layout)?;
    Ok(nodes)
}

/// The nodes of the function with this number in the sampled program.
fn nodes_of(
    alloc: Global,
    number: u32,
    source: &Source,
    headers: &[bool],
) -> Result<Seq<Node>, Memory>
    requires { is_in source.now.weighty.now number ≡ true → IsPrepared source.now headers.now }
    ensures weightless { IfOk result (λ nodes. is_in source.now.weighty.now number ≡ false → nodes ≡ source.now.nodes.now) }
    ensures copied { IfOk result (λ nodes. is_in source.now.weighty.now number ≡ true → NodesCloned (is_in source.now.weighty.now) source.now.nodes.now nodes) }
    ensures small { IfOk result (λ nodes. length nodes ≤ 8 * length source.now.nodes.now) }
    ensures fits { IfOk result (λ nodes. FitsLike source.now.nodes.now nodes) }
{
    if is_in(source.weighty, number) {
        let nodes = clone_nodes(alloc, source, headers)?;
        return Ok(Seq::from_vec(nodes));
    }
    let nodes = copy_of(alloc, source.nodes)?;
    Ok(nodes)
}

/// The function with this number in the sampled program.
pub(crate) fn clone_function(
    alloc: Global,
    number: u32,
    function: &Function,
    source: &Source,
    headers: &[bool],
) -> Result<Function, Memory>
    requires nodes { source.now.nodes.now ≡ function.now.nodes }
    requires prepared { is_in source.now.weighty.now number ≡ true → IsPrepared source.now headers.now }
    ensures cloned { IfOk result (λ g. FunctionCloned (is_in source.now.weighty.now) number function.now g) }
    ensures small { IfOk result (λ g. length g.nodes ≤ 8 * length function.now.nodes) }
    ensures fits { IfOk result (λ g. FitsLike function.now.nodes g.nodes) }
{
    let nodes = nodes_of(alloc, number, source, headers)?;
    let name = function.name.try_clone()?;
    let locals = copy_of(alloc, function.locals.as_slice())?;
    Ok(Function {
        name,
        value: function.value,
        params: function.params,
        locals,
        nodes,
    })
}
