ghost use Rattle.std.specs.Prelude.{◌≡◌};
ghost use Rattle.compiler.specs.declared.text_error.TextError.TheVariants as error;

use cbi_base::{Memory, Refusal};

/// Why a text isn't accepted: it is refused, or memory is wanting.
#[derive(Debug, Drop)]
pub enum TextError {
    Refused { refusal: Refusal },
    Memory,
}

impl From<Memory> for TextError {
    ghost from_gives = { λ _ e. e ≡ error.Memory };

    fn from(_e: Memory) -> TextError {
        TextError::Memory
    }
}
