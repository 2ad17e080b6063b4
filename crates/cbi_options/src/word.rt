ghost use Rattle.std.specs.Prelude.{◌≡◌, IfOk};

use cbi_base::Memory;
use std::alloc::Global;
use std::marker::Model;

/// A word of a command line. Contracts see it as the list of its bytes.
#[derive(Debug, Drop)]
pub struct Word {
    text: String,
}

impl Model for Word {
    ghost use Rattle.std.specs.Prelude.{ℕ, List, string_bytes};

    ghost Value = { List ℕ };

    ghost view = { λ w. string_bytes w.text };
}

impl Word {
    /// A word with this text.
    pub fn new(alloc: Global, text: &str) -> Result<Word, Memory>
        ensures { IfOk result (λ w. w ≡ text.now) }
    {
        Ok(Word {
            text: String::from_str(alloc, text)?,
        })
    }

    /// The text of the word.
    pub fn as_str(&self) -> &str
        ensures { result.now ≡ self.now }
    {
        self.text.as_str()
    }

    /// An equal word.
    pub fn try_clone(&self) -> Result<Word, Memory>
        ensures { IfOk result (λ w. w ≡ self.now) }
    {
        Ok(Word {
            text: self.text.clone()?,
        })
    }
}
