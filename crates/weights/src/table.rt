ghost use Rattle.std.specs.Prelude.{◌≡◌, ◌≤◌, IfOk, length};
ghost use Rattle.flow.specs.Limits.{node_limit};
ghost use Rattle.regions.specs.Flags.{AreFlags, is_in};
ghost use Rattle.regions.specs.Rows.{EachFits};
ghost use Rattle.regions.specs.Weighty.{IsWeighty};
ghost use Rattle.weights.specs.Weight.{AreWeights, IsForward, WeightsFit};

use crate::node_weight::weight_of;
use cbi_base::Memory;
use flow::{Node, Program};
use std::alloc::Global;

/// The weights of a function's nodes, from the last one down: a path goes to later nodes alone.
fn weights_of(alloc: Global, weighty: &[bool], nodes: &[Node]) -> Result<Vec<u32>, Memory>
    requires forward { IsForward (is_in weighty.now) nodes.now }
    requires few { length nodes.now ≤ node_limit }
    ensures { IfOk result (λ weights. AreWeights (is_in weighty.now) nodes.now weights.items) }
{
    let mut weights = vec![in alloc; 0u32; nodes.len()]?;
    for place in (0..nodes.len()).rev() {
        weights[place] = weight_of(&weights, weighty, nodes[place]);
    }
    Ok(weights)
}

/// The weight of each node of each function: the greatest number of visits of sites on a path from it within its region.
pub fn weights(alloc: Global, program: &Program, weighty: &[bool]) -> Result<Vec<Vec<u32>>, Memory>
    requires { AreFlags (length program.now.functions) (IsWeighty program.now) weighty.now }
    ensures { IfOk result (λ table. EachFits (WeightsFit weighty.now) program.now.functions table.items) }
{
    let functions = program.functions();
    let mut table = Vec::with_capacity(alloc, functions.len())?;
    for function in functions {
        let weights = weights_of(alloc, weighty, function.nodes.as_slice())?;
        table.push(weights)?;
    }
    Ok(table)
}
