ghost use Rattle.std.specs.Prelude.{◌≡◌, ◌<◌, ℕ, IfOk, length, Contains};
ghost use Rattle.flow.specs.Words.{view, led_to};
ghost use Rattle.regions.specs.Blocks.{BlocksFit, IsStart, NodeLeadsTo, ends_block};
ghost use Rattle.regions.specs.Flags.{AreFlags};
ghost use Rattle.regions.specs.Rows.{EachFits};
ghost use Rattle.regions.specs.Weighty.{views_of};
ghost use Rattle.regions.specs.Noted.{at_entry, successor_noted, noted_all, sets_of};

use cbi_base::Memory;
use flow::{Node, Program, View, Ways, successors, view_of};
use std::alloc::Global;

/// What is known of a function's nodes so far: to which of them some node leads, and at which a block begins.
#[derive(Drop)]
struct Starts {
    led_to: Vec<bool>,
    starts: Vec<bool>,
}

/// Whether control leaves the block at the node.
fn ends_block(node: Node) -> bool
    ensures { result ≡ ends_block (view node) }
{
    matches!(
        view_of(node),
        View::Forks { .. } | View::Turns { .. } | View::Calls { .. } | View::Picks { .. }
    )
}

impl Starts {
    /// Of so many nodes, to which none is known to lead; a block begins at the first.
    fn none(alloc: Global, count: usize) -> Result<Starts, Memory>
        requires { 0 < count }
        ensures { IfOk result (λ b. sets_of b ≡ at_entry count) }
    {
        let mut starts = vec![in alloc; false; count]?;
        starts[0] = true;
        Ok(Starts {
            led_to: vec![in alloc; false; count]?,
            starts,
        })
    }

    /// Notes that a node leads to this one.
    fn note(&mut self, ends: bool, next: u32)
        requires led_to { next < length self.old.led_to.items }
        requires starts { next < length self.old.starts.items }
        ensures { sets_of self.new ≡ successor_noted ends next (sets_of self.old) }
    {
        if ends || self.led_to[next as usize] {
            self.starts[next as usize] = true;
        }
        self.led_to[next as usize] = true;
    }

    /// Notes the nodes to which this one leads.
    fn note_node(&mut self, node: Node)
        requires led_to { (next : ℕ) → Contains (led_to (view node)) next → next < length self.old.led_to.items }
        requires starts { (next : ℕ) → Contains (led_to (view node)) next → next < length self.old.starts.items }
        ensures { sets_of self.new ≡ noted_all (ends_block (view node)) (led_to (view node)) (sets_of self.old) }
    {
        let ends = ends_block(node);
        match successors(node) {
            Ways::None => {}
            Ways::One { next } => self.note(ends, next),
            Ways::Two { first, second } => {
                self.note(ends, first);
                self.note(ends, second);
            }
        }
    }
}

/// Where the blocks of a function with these nodes begin.
fn blocks_of(alloc: Global, nodes: &[Node]) -> Result<Vec<bool>, Memory>
    requires entry { 0 < length nodes.now }
    requires within { (place next : ℕ) → NodeLeadsTo (views_of nodes.now) place next → next < length nodes.now }
    ensures { IfOk result (λ flags. AreFlags (length nodes.now) (IsStart (views_of nodes.now)) flags.items) }
{
    let mut found = Starts::none(alloc, nodes.len())?;
    for node in nodes {
        found.note_node(*node);
    }
    let Starts { starts, .. } = found;
    Ok(starts)
}

/// Where the basic blocks of each function begin: a flag for each of its nodes.
pub fn blocks(alloc: Global, program: &Program) -> Result<Vec<Vec<bool>>, Memory>
    ensures { IfOk result (λ table. EachFits BlocksFit program.now.functions table.items) }
{
    let functions = program.functions();
    let mut table = Vec::with_capacity(alloc, functions.len())?;
    for function in functions {
        let flags = blocks_of(alloc, function.nodes.as_slice())?;
        table.push(flags)?;
    }
    Ok(table)
}
