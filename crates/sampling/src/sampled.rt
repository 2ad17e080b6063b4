ghost use Rattle.std.specs.Prelude.{IfOk};
ghost use Rattle.clone_paths.specs.Cloned.{Cloned, IsSmall, MayClone};
ghost use Rattle.sampling.specs.Runs.{Samples};
ghost use Rattle.flow.specs.Ready.{IsReady};

use cbi_base::Memory;
use clone_paths::clone_program;
use flow::Program;
use std::alloc::Global;

/// The sampled program of a program, which runs like it: a run ends alike, with the same output, and observes the samples of the visits.
/// This asks that each visit of a condition's site stands before the fork on the condition. A run that meets a fault of the program itself
/// (a row without its operands) is not spoken of: there the sampled program may go on past a site that it doesn't look at. The program has no sampling
/// nodes and at most 2,000,000 nodes, and the bank of a run has numbers of at least 1.
pub fn sample(alloc: Global, program: Program) -> Result<Program, Memory>
    requires { MayClone program }
    ensures cloned { IfOk result (λ q. Cloned program q) }
    ensures small { IfOk result (λ q. IsSmall program q) }
    ensures samples { IfOk result (λ q. IsReady program → Samples program q) }
{
    // Its clause says that the parts are a program's.
    let _main = program.main();
    let sampled = clone_program(alloc, program)?;
    Ok(sampled)
}
