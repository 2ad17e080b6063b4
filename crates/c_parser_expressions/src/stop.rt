ghost use Rattle.std.specs.Prelude.{◌≡◌};
ghost use Rattle.c_parser_expressions.specs.declared.stop.Stop.TheVariants as stop;

use cbi_base::Memory;
use std::alloc::{AllocError, AllocFailed};

/// Why a part isn't read.
#[derive(Clone, Copy)]
pub enum Stop {
    /// No part goes on with the token at the index.
    Refused { index: usize },
    Memory,
}

impl From<Memory> for Stop {
    ghost from_gives = { λ _ e. e ≡ stop.Memory };

    fn from(_e: Memory) -> Stop {
        Stop::Memory
    }
}

impl<T: Drop> From<AllocFailed<T>> for Stop {
    ghost from_gives = { λ _ e. e ≡ stop.Memory };

    fn from(_e: AllocFailed<T>) -> Stop {
        Stop::Memory
    }
}

impl From<AllocError> for Stop {
    ghost from_gives = { λ _ e. e ≡ stop.Memory };

    fn from(_e: AllocError) -> Stop {
        Stop::Memory
    }
}
