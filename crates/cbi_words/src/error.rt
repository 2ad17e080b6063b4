ghost use Rattle.std.specs.Prelude.{◌≡◌};

use cbi_base::Memory;

/// Why words were not read as a command.
#[derive(Debug, Drop)]
pub enum WordsError {
    /// They read as none. The text is what err is told.
    Usage { text: String },
    Memory,
}

impl From<Memory> for WordsError {
    ghost use Rattle.cbi_words.specs.declared.error.WordsError.TheVariants as error;

    ghost from_gives = { λ _ e. e ≡ error.Memory };

    fn from(_e: Memory) -> WordsError {
        WordsError::Memory
    }
}
