ghost use Rattle.std.specs.Prelude.{◌≡◌};
ghost use Rattle.command_base.specs.Faults.{status_of};

use cbi_base::{Memory, Refusal};
use cbi_options::Word;

/// Why a command didn't do what it was asked.
#[derive(Debug, Drop)]
pub enum Fault {
    /// The file with this name wasn't read.
    Read { name: Word },
    /// Out didn't take the text, or the store didn't.
    Write,
    /// The bytes read are refused.
    Refused { refusal: Refusal },
    Memory,
}

impl Fault {
    /// The status that the call ends with.
    pub fn status(&self) -> u8
        ensures { result ≡ status_of self.now }
    {
        match self {
            Fault::Read { .. } => 3,
            Fault::Write => 4,
            Fault::Refused { .. } => 5,
            Fault::Memory => 7,
        }
    }
}

impl From<Memory> for Fault {
    ghost use Rattle.command_base.specs.declared.fault.Fault.TheVariants as fault;

    ghost from_gives = { λ _ e. e ≡ fault.Memory };

    fn from(_e: Memory) -> Fault {
        Fault::Memory
    }
}
