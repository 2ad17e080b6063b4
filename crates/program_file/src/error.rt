ghost use Rattle.std.specs.Prelude.{◌≡◌};

use cbi_base::Memory;

/// Why bytes were not read as a program.
#[derive(Clone, Copy, Debug, PartialEq, Eq)]
pub enum ProgramError {
    /// The bytes are the text of no program. The line is 1 plus the number of whole lines in their longest good prefix.
    BadProgram { line: u32 },
    Memory,
}

impl From<Memory> for ProgramError {
    ghost use Rattle.program_file.specs.declared.error.ProgramError.TheVariants as error;

    ghost from_gives = { λ _ e. e ≡ error.Memory };

    fn from(_e: Memory) -> ProgramError {
        ProgramError::Memory
    }
}
