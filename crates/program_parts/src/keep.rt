ghost use Rattle.std.specs.Prelude.{◌≡◌, IfOk, length};
ghost use Rattle.std.specs.List.{All, sum_by};
ghost use Rattle.flow.specs.Words.{PartFits, table_of, ArePlain, IsReady};
ghost use Rattle.program_parts.specs.Program.{part_program, part_table};
ghost use Rattle.program_parts.specs.Runs.{RunsInPart};

use crate::nodes::part_functions;
use crate::sites::part_sites;
use cbi_base::Memory;
use flow::{Part, Program, ProgramParts};
use std::alloc::Global;

/// The program with a part of the sites: the visits of other sites do nothing. It runs like the program: a run ends alike, with the same output,
/// and observes exactly the part's visits.
/// This asks that each visit of a condition's site stands before the fork on the condition. A run that meets a fault of the program itself
/// (a site without its operand) is not spoken of: there the part's program may go on past a site that it doesn't look at.
pub fn keep_part(alloc: Global, program: Program, part: Part) -> Result<Program, Memory>
    requires part { PartFits part }
    requires plain { All (λ f. ArePlain f.nodes) program.functions }
    ensures value { IfOk result (λ q. q ≡ part_program part program) }
    ensures table { IfOk result (λ q. table_of q ≡ part_table part (table_of program)) }
    ensures plain { IfOk result (λ q. All (λ f. ArePlain f.nodes) q.functions) }
    ensures nodes { IfOk result (λ q. sum_by (λ f. length f.nodes) q.functions ≡ sum_by (λ f. length f.nodes) program.functions) }
    ensures ready { IfOk result (λ q. IsReady program → IsReady q) }
    ensures runs { IfOk result (λ q. IsReady program → RunsInPart part program q) }
{
    let functions = part_functions(alloc, program.functions(), part)?;
    let ProgramParts {
        texts,
        globals,
        functions: _,
        main,
        sites,
    } = program.into_parts();
    let sites = part_sites(alloc, sites, part)?;
    let parts = ProgramParts {
        texts,
        globals,
        functions,
        main,
        sites,
    };
    let kept = Program::of(alloc, parts)?;
    Ok(kept)
}
