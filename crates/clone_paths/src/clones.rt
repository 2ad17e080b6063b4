ghost use Rattle.std.specs.Prelude.{◌≡◌, ◌*◌, ◌≤◌, IfOk, length};
ghost use Rattle.std.specs.List.{sum_by};
ghost use Rattle.regions.specs.Flags.{AreFlags, is_in};
ghost use Rattle.regions.specs.Rows.{EachFits};
ghost use Rattle.regions.specs.Weighty.{IsWeighty};
ghost use Rattle.clone_paths.specs.Cloned.{Cloned, FunctionCloned, IsSmall, MayClone, StillFits};

use crate::function::clone_function;
use cbi_base::{Memory, Seq};
use copied_nodes::Source;
use flow::{Function, Program, ProgramParts};
use regions::{blocks, headers, weighty};
use std::alloc::Global;
use weights::weights;

/// The functions of the sampled program.
fn clone_functions(
    alloc: Global,
    program: &Program,
    weighty: &[bool],
) -> Result<Seq<Function>, Memory>
    requires may_clone { MayClone program.now }
    requires weighty { AreFlags (length program.now.functions) (IsWeighty program.now) weighty.now }
    ensures cloned { IfOk result (λ fs. EachFits (FunctionCloned (is_in weighty.now)) program.now.functions fs) }
    ensures fits { IfOk result (λ fs. EachFits StillFits program.now.functions fs) }
    ensures small { IfOk result (λ fs. sum_by (λ f. length f.nodes) fs ≤ 8 * sum_by (λ f. length f.nodes) program.now.functions) }
{
    let functions = program.functions();
    let headers = headers(alloc, program, weighty)?;
    let starts = blocks(alloc, program)?;
    let weights = weights(alloc, program, weighty)?;
    let mut clones = Vec::with_capacity(alloc, functions.len())?;
    for (number, function) in functions.iter().enumerate() {
        let source = Source {
            weighty,
            nodes: function.nodes.as_slice(),
            starts: &starts[number],
            weights: &weights[number],
        };
        let clone = clone_function(alloc, number as u32, function, &source, &headers[number])?;
        clones.push(clone)?;
    }
    Ok(Seq::from_vec(clones))
}

/// The sampled program: each weighty function in a fast and a slow copy, the weightless ones as they are.
pub fn clone_program(alloc: Global, program: Program) -> Result<Program, Memory>
    requires { MayClone program }
    ensures cloned { IfOk result (λ q. Cloned program q) }
    ensures small { IfOk result (λ q. IsSmall program q) }
{
    let weighty = weighty(alloc, &program)?;
    let functions = clone_functions(alloc, &program, &weighty)?;
    let ProgramParts {
        texts,
        globals,
        functions: _,
        main,
        sites,
    } = program.into_parts();
    let parts = ProgramParts {
        texts,
        globals,
        functions,
        main,
        sites,
    };
    let clone = Program::of(alloc, parts)?;
    Ok(clone)
}
