ghost use Rattle.std.specs.Prelude.{◌≡◌, ◌<◌, ℕ, IfOk, length};
ghost use Rattle.flow.specs.View.{view};
ghost use Rattle.regions.specs.Blocks.{NodeLeadsTo};
ghost use Rattle.regions.specs.Flags.{AreFlags, is_in};
ghost use Rattle.regions.specs.Headers.{HeadersFit, IsHeader, begun_after};
ghost use Rattle.regions.specs.Rows.{EachFits};
ghost use Rattle.regions.specs.Weighty.{IsWeighty, views_of};

use crate::flags::is_in;
use cbi_base::Memory;
use flow::{Function, Node, Program, View, view_of};
use std::alloc::Global;

/// The node that follows, where a region begins there.
fn begun_after(weighty: &[bool], node: Node) -> Option<u32>
    ensures { result ≡ begun_after (is_in weighty.now) (view node) }
{
    match view_of(node) {
        View::Turns { next } => Some(next),
        View::Calls { function, next } if is_in(weighty, function) => Some(next),
        _ => None,
    }
}

/// Where the regions of a weighty function with these nodes begin.
fn headers_of(alloc: Global, weighty: &[bool], nodes: &[Node]) -> Result<Vec<bool>, Memory>
    requires entry { 0 < length nodes.now }
    requires within { (place next : ℕ) → NodeLeadsTo (views_of nodes.now) place next → next < length nodes.now }
    ensures { IfOk result (λ flags. AreFlags (length nodes.now) (IsHeader (is_in weighty.now) (views_of nodes.now)) flags.items) }
{
    let mut flags = vec![in alloc; false; nodes.len()]?;
    flags[0] = true;
    for node in nodes {
        if let Some(next) = begun_after(weighty, *node) {
            flags[next as usize] = true;
        }
    }
    Ok(flags)
}

/// Where the regions of the function with this number begin: a flag for each of its nodes.
fn flags_of(
    alloc: Global,
    weighty: &[bool],
    number: u32,
    function: &Function,
) -> Result<Vec<bool>, Memory>
    requires entry { 0 < length function.now.nodes }
    requires within { (place next : ℕ) → NodeLeadsTo (views_of function.now.nodes) place next → next < length function.now.nodes }
    ensures { IfOk result (λ flags. HeadersFit weighty.now number function.now flags) }
{
    let nodes = function.nodes.as_slice();
    if is_in(weighty, number) {
        let flags = headers_of(alloc, weighty, nodes)?;
        return Ok(flags);
    }
    let flags = vec![in alloc; false; nodes.len()]?;
    Ok(flags)
}

/// Where the regions of each function begin: a flag for each of its nodes. In a weightless function none begins.
pub fn headers(alloc: Global, program: &Program, weighty: &[bool]) -> Result<Vec<Vec<bool>>, Memory>
    requires { AreFlags (length program.now.functions) (IsWeighty program.now) weighty.now }
    ensures { IfOk result (λ table. EachFits (HeadersFit weighty.now) program.now.functions table.items) }
{
    let functions = program.functions();
    let mut table = Vec::with_capacity(alloc, functions.len())?;
    for (number, function) in functions.iter().enumerate() {
        let flags = flags_of(alloc, weighty, number as u32, function)?;
        table.push(flags)?;
    }
    Ok(table)
}
