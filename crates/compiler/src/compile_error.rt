ghost use Rattle.std.specs.Prelude.{◌≡◌};
ghost use Rattle.compiler.specs.Refused.{error_of};
ghost use Rattle.compiler.specs.declared.compile_error.CompileError.TheVariants as error;

use crate::text_error::TextError;
use cbi_base::{Memory, Refusal};

/// Why a text isn't compiled: it is refused, or memory is wanting.
#[derive(Debug, Drop)]
pub enum CompileError {
    Refused { refusal: Refusal },
    Memory,
}

impl From<Memory> for CompileError {
    ghost from_gives = { λ _ e. e ≡ error.Memory };

    fn from(_e: Memory) -> CompileError {
        CompileError::Memory
    }
}

impl From<TextError> for CompileError {
    ghost from_gives = { λ t e. e ≡ error_of t };

    fn from(e: TextError) -> CompileError {
        match e {
            TextError::Refused { refusal } => CompileError::Refused { refusal },
            TextError::Memory => CompileError::Memory,
        }
    }
}
