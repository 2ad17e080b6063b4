ghost use Rattle.std.specs.Prelude.{◌≡◌, ◌++◌, ◌≤◌, IfOk, OnOk, length};
ghost use Rattle.clone_paths.specs.Layout.{copy_labels, entry_alone, fast_labels, gate_labels, with_node_labels, out_labels, sheet_of};

use crate::parts::{Outlet, Part};
use cbi_base::Memory;
use copied_nodes::{CopyLabel, Layout, Side};
use std::alloc::Global;

/// Adds the outlet itself, and the return from a call.
fn push_out(
    labels: &mut Vec<CopyLabel>,
    side: Side,
    node: u32,
    outlet: Outlet,
) -> Result<(), Memory>
    ensures { OnOk result (labels.new.items ≡ labels.old.items ++ out_labels side node outlet) }
{
    match outlet {
        Outlet::None => {}
        Outlet::Leaves => labels.push(CopyLabel::Out { side, node })?,
        Outlet::Calls { next } => {
            labels.push(CopyLabel::Out { side, node })?;
            labels.push(CopyLabel::Back { node: next })?;
        }
    }
    Ok(())
}

/// Adds a node in a copy, twice where what is owed is paid before it.
fn push_copy(
    labels: &mut Vec<CopyLabel>,
    side: Side,
    node: u32,
    owed: u32,
    pays: bool,
    outlet: Outlet,
) -> Result<(), Memory>
    ensures { OnOk result (labels.new.items ≡ labels.old.items ++ copy_labels side node owed pays outlet) }
{
    labels.push(CopyLabel::In { side, node, owed })?;
    if pays {
        let owed = 0;
        labels.push(CopyLabel::In { side, node, owed })?;
    }
    push_out(labels, side, node, outlet)
}

/// Adds the choice before a node, where a region begins there.
fn push_gate(labels: &mut Vec<CopyLabel>, header: bool, node: u32) -> Result<(), Memory>
    ensures { OnOk result (labels.new.items ≡ labels.old.items ++ gate_labels header node) }
{
    if header {
        labels.push(CopyLabel::Gate { node })?;
    }
    Ok(())
}

/// Adds the fast copy of a node.
fn push_fast(labels: &mut Vec<CopyLabel>, node: u32, part: Part) -> Result<(), Memory>
    ensures { OnOk result (labels.new.items ≡ labels.old.items ++ fast_labels node part) }
{
    if !part.inside {
        push_copy(labels, Side::Fast, node, part.owed, part.pays, part.outlet)?;
    }
    Ok(())
}

/// The entry, and no node of the original function yet.
pub(crate) fn first_labels(alloc: Global) -> Result<Layout, Memory>
    ensures { IfOk result (λ l. sheet_of l ≡ entry_alone) }
{
    let labels = vec![in alloc; CopyLabel::Enter]?;
    Ok(Layout {
        labels,
        gates: Vec::new(alloc),
        slow: Vec::new(alloc),
        fast: Vec::new(alloc),
    })
}

/// Adds the labels for the next node.
pub(crate) fn add_labels(
    layout: &mut Layout,
    header: bool,
    node: u32,
    part: Part,
) -> Result<(), Memory>
    requires { length layout.old.labels.items ≤ 16000000 }
    ensures { OnOk result (sheet_of layout.new ≡ with_node_labels header node part (sheet_of layout.old)) }
{
    layout.gates.push(layout.labels.len() as u32)?;
    push_gate(&mut layout.labels, header, node)?;
    layout.slow.push(layout.labels.len() as u32)?;
    push_copy(&mut layout.labels, Side::Slow, node, 0, false, part.outlet)?;
    layout.fast.push(layout.labels.len() as u32)?;
    push_fast(&mut layout.labels, node, part)?;
    Ok(())
}
