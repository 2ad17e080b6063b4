ghost use Rattle.std.specs.Prelude.{◌≡◌, IfOk, IfErr};
ghost use Rattle.flow.specs.declared.program.ProgramParts.{ProgramParts};
ghost use Rattle.flow.specs.Spelling.{SpellsProgram};
ghost use Rattle.command_base.specs.Faults.{HasCause, Precedes};
ghost use Rattle.command_inputs.specs.Programs.{IsBadProgram};

use cbi_base::Refusal;
use command_base::Fault;
use flow::Program;
use program_file::{ProgramError, read_program};
use std::alloc::Global;

/// The program that the bytes of a file spell.
pub fn load_program(alloc: Global, bytes: &[u8]) -> Result<Program, Fault>
    ensures found { IfOk result (λ p. SpellsProgram bytes.now p) }
    ensures only { (p : ProgramParts) → SpellsProgram bytes.now p → IfOk result (λ r. r ≡ p) }
    ensures fault { IfErr result (λ e. HasCause e (λ n. ⊥) ⊥ (IsBadProgram bytes.now)) }
    ensures precedes { IfErr result Precedes }
{
    match read_program(alloc, bytes) {
        Ok(program) => Ok(program),
        Err(ProgramError::BadProgram { line }) => Err(Fault::Refused {
            refusal: Refusal::BadProgram { line },
        }),
        Err(ProgramError::Memory) => Err(Fault::Memory),
    }
}
