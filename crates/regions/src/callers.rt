ghost use Rattle.std.specs.Prelude.{◌≡◌, ◌<◌, ◌^◌, IfOk, OnOk, length, replicate, []};
ghost use Rattle.regions.specs.Callers.{CallsAmong, Grew};
ghost use Rattle.regions.specs.Weighty.{CallsTo};

use cbi_base::{Memory, Seq};
use flow::{Function, Node, View, view_of};
use std::alloc::Global;

/// Adds a caller of a function that has a list of its callers.
fn add_call(callers: &mut Vec<Seq<u32>>, callee: u32, caller: u32) -> Result<(), Memory>
    ensures { OnOk result (Grew callers.old.items callers.new.items (λ g f. (g ≡ callee) × (f ≡ caller))) }
{
    if (callee as usize) < callers.len() {
        callers[callee as usize].push(caller)?;
    }
    Ok(())
}

/// Adds a function with these nodes to the callers of each function that it calls.
fn add_calls(callers: &mut Vec<Seq<u32>>, caller: u32, nodes: &[Node]) -> Result<(), Memory>
    ensures { OnOk result (Grew callers.old.items callers.new.items (λ g f. (f ≡ caller) × CallsAmong nodes.now (length nodes.now) g)) }
{
    for node in nodes {
        if let View::Calls { function, .. } = view_of(*node) {
            add_call(callers, function, caller)?;
        }
    }
    Ok(())
}

/// An empty list for each of so many functions.
fn no_callers(alloc: Global, count: usize) -> Result<Vec<Seq<u32>>, Memory>
    ensures { IfOk result (λ callers. callers.items ≡ replicate count []) }
{
    let mut callers = Vec::with_capacity(alloc, count)?;
    for _ in 0..count {
        callers.push(Seq::new(alloc))?;
    }
    Ok(callers)
}

/// The callers of each function.
pub(crate) fn callers_of(alloc: Global, functions: &[Function]) -> Result<Vec<Seq<u32>>, Memory>
    requires { length functions.now < 2 ^ 32 }
    ensures { IfOk result (λ callers. Grew (replicate (length functions.now) []) callers.items (λ g f. CallsTo functions.now f g)) }
{
    let mut callers = no_callers(alloc, functions.len())?;
    for (number, function) in functions.iter().enumerate() {
        add_calls(&mut callers, number as u32, function.nodes.as_slice())?;
    }
    Ok(callers)
}
