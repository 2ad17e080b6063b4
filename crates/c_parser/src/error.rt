ghost use Rattle.std.specs.Prelude.{◌≡◌};
ghost use Rattle.c_parser.specs.declared.error.ParseError.TheVariants as error;

use cbi_base::Memory;
use std::alloc::{AllocError, AllocFailed};

/// Why tokens aren't parsed.
#[derive(Clone, Copy, Debug, PartialEq, Eq)]
pub enum ParseError {
    /// No well-formed tree has the tokens. The item is the length of the longest front that is empty or the tokens of a
    /// well-formed tree; the index is that of a token with which none goes on, or the number of tokens.
    Syntax { index: usize, item: usize },
    Memory,
}

impl From<Memory> for ParseError {
    ghost from_gives = { λ _ e. e ≡ error.Memory };

    fn from(_e: Memory) -> ParseError {
        ParseError::Memory
    }
}

impl From<AllocError> for ParseError {
    ghost from_gives = { λ _ e. e ≡ error.Memory };

    fn from(_e: AllocError) -> ParseError {
        ParseError::Memory
    }
}

impl<T: Drop> From<AllocFailed<T>> for ParseError {
    ghost from_gives = { λ _ e. e ≡ error.Memory };

    fn from(_e: AllocFailed<T>) -> ParseError {
        ParseError::Memory
    }
}
