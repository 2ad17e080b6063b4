ghost use Rattle.std.specs.Prelude.{◌≡◌};
ghost use Rattle.study_runs.specs.declared.fault.RunsFault.TheVariants as faults;

use cbi_base::Memory;

/// Why a study's runs aren't all collected.
#[derive(Debug, Drop)]
pub enum RunsFault {
    /// With the entries of this run there would be more than a collection holds, which are 16,777,216.
    TooManyMarks { run: u32 },
    /// Memory is wanting.
    Memory,
}

impl From<Memory> for RunsFault {
    ghost from_gives = { λ _ e. e ≡ faults.Memory };

    fn from(_e: Memory) -> RunsFault {
        RunsFault::Memory
    }
}
