ghost use Rattle.std.specs.Prelude.{◌≡◌};
ghost use Rattle.c_lexer.specs.declared.error.LexError.TheVariants as error;

use cbi_base::Memory;
use std::alloc::AllocFailed;

/// Why a text has no tokens.
#[derive(Clone, Copy, Debug, PartialEq, Eq)]
pub enum LexError {
    /// Nothing stands at a byte that begins no token, separator or directive.
    BadByte { line: u32 },
    /// Nothing stands at any other byte.
    BadToken { line: u32 },
    /// The text has more than 1,048,576 bytes, or more than 100,000 tokens.
    TooLarge,
    Memory,
}

impl From<Memory> for LexError {
    ghost from_gives = { λ _ e. e ≡ error.Memory };

    fn from(_e: Memory) -> LexError {
        LexError::Memory
    }
}

impl<T: Drop> From<AllocFailed<T>> for LexError {
    ghost from_gives = { λ _ e. e ≡ error.Memory };

    fn from(_e: AllocFailed<T>) -> LexError {
        LexError::Memory
    }
}
