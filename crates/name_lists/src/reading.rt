ghost use Rattle.std.specs.Prelude.{◌≡◌, ◌≤◌, ℕ, List, IfOk, Err};
ghost use Rattle.cbi_base.specs.Lines.{IsBadLine};
ghost use Rattle.name_lists.specs.Answers.{ListReadAs, ListRefusedAt};
ghost use Rattle.name_lists.specs.Grammar.{NameFollows, ListEnds, start_of_list};
ghost use Rattle.name_lists.specs.List.{SpellsList};
ghost use Rattle.name_lists.specs.declared.reading.ListError.TheVariants as error;

use crate::draft::Draft;
use cbi_base::{Seq, TextError, read_lines};
use cbi_options::Word;
use std::alloc::Global;

/// Why bytes were not read as a list of names.
#[derive(Clone, Copy, Debug, PartialEq, Eq)]
pub enum ListError {
    /// The bytes are the text of no list. The line is 1 plus the number of whole lines in their longest good prefix.
    BadList { line: u32 },
    Memory,
}

/// The names whose lines the text has, in their order. The run on the first has the number `first`, and each further one the next number. A list has 1 to
/// 100,000 names; each has 1 to 4,095 bytes of UTF-8 and no NUL; and the last one's run has a number that fits.
pub fn read_list(alloc: Global, first: u32, text: &[u8]) -> Result<Seq<Word>, ListError>
    requires { 1 ≤ first }
    // What is read is spelled so.
    ensures found { IfOk result (SpellsList first text.now) }
    // What is spelled so is read, unless memory runs out: so a text is refused exactly where it spells no list.
    ensures only { (names : List (List ℕ)) → SpellsList first text.now names → ListReadAs result names }
    // A refusal names the bad line.
    ensures line { (line : ℕ) → result ≡ Err (error.BadList line) → IsBadLine NameFollows ListEnds (start_of_list alloc first) text.now line }
    // A text that goes wrong at a line is refused there, unless memory runs out.
    ensures line_only { (line : ℕ) → IsBadLine NameFollows ListEnds (start_of_list alloc first) text.now line → ListRefusedAt result line }
{
    let mut draft = Draft::new(alloc, first);
    match read_lines(&mut draft, text) {
        Ok(()) => Ok(draft.into_names()),
        Err(TextError::Bad { line }) => Err(ListError::BadList { line }),
        Err(TextError::Memory) => Err(ListError::Memory),
    }
}
