ghost use Rattle.std.specs.Prelude.{◌≡◌, ◌≤◌, ◌↔◌, ℕ, List, length, OnOk, IsTrue};
ghost use Rattle.cbi_base.specs.Lines.{LeadsOnce, ReadsLines, IsGoodPrefix, Stops, IsBadLine, line_after};
ghost use Rattle.cbi_base.specs.LineFaults.{TakenWith, ReadWith, IfBadAt, RefusedAt, bad_after};

use crate::text::cut;

/// The greatest line that an error can have.
const LAST_LINE: usize = 4294967295;

/// Why a line was not taken.
#[derive(Clone, Copy, Debug, PartialEq, Eq)]
pub enum LineError {
    /// The lines before it call for another line.
    Bad,
    Memory,
}

/// Why a text was not read.
#[derive(Clone, Copy, Debug, PartialEq, Eq)]
pub enum TextError {
    /// The line, counted from 1, at which the longest good prefix of the text's whole lines ends; or the greatest that fits.
    Bad { line: u32 },
    Memory,
}

/// A reader of a text, line by line: its state says what the lines so far call for.
pub trait LineReader {
    /// The line may come next, and the state is this one after it.
    ghost follows: { Self → List ℕ → Self → Type 0 };

    /// The text may end in this state.
    ghost ends: { Self → Type 0 };

    /// Takes the next line, without its newline. After an error the state isn't said.
    fn take(&mut self, line: &[u8]) -> Result<(), LineError>
        ensures ok { OnOk result (follows self.old line.now self.new) }
        ensures only { (next : Self) → follows self.old line.now next → TakenWith result (self.new ≡ next) };

    /// Whether the text may end here.
    fn may_end(&self) -> bool
        ensures { IsTrue result ↔ ends self.now };
}

fn bad_after(lines: usize) -> TextError
    ensures { result ≡ bad_after lines }
{
    TextError::Bad {
        line: lines.min(LAST_LINE - 1) as u32 + 1,
    }
}

/// Reads a whole text.
pub fn read_lines<R: LineReader>(reader: &mut R, bytes: &[u8]) -> Result<(), TextError>
    // What is read is in the grammar.
    ensures ok { OnOk result (ReadsLines R.follows R.ends reader.old bytes.now reader.new) }
    // What is in the grammar is read, unless memory runs out.
    ensures only { (to : R) → ReadsLines R.follows R.ends reader.old bytes.now to → ReadWith result (reader.new ≡ to) }
    // A refusal names the bad line.
    ensures bad { IfBadAt result (λ line. IsBadLine R.follows R.ends reader.old bytes.now line) }
    // A text that goes wrong at a line is refused there, unless memory runs out.
    ensures bad_only { (line : ℕ) → IsBadLine R.follows R.ends reader.old bytes.now line → RefusedAt result line }
{
    let mut rest = bytes;
    let mut lines = 0;
    while !rest.is_empty() {
        let Some((line, after)) = cut(rest, b'\n') else {
            return Err(bad_after(lines));
        };
        match reader.take(line) {
            Ok(()) => {}
            Err(LineError::Bad) => return Err(bad_after(lines)),
            Err(LineError::Memory) => return Err(TextError::Memory),
        }
        rest = after;
        lines += 1;
    }
    if !reader.may_end() {
        return Err(bad_after(lines));
    }
    Ok(())
}

/// In a grammar in which a line leads to one state, a text has at most one bad line.
pub fn one_bad_line<R: LineReader>()
    ensures { LeadsOnce R.follows → (from : R) (text : List ℕ) (a b : ℕ)
        → IsBadLine R.follows R.ends from text a → IsBadLine R.follows R.ends from text b → a ≡ b }
{}

/// There, a text that can be read has no bad line.
pub fn no_bad_line<R: LineReader>()
    ensures { LeadsOnce R.follows → (from to : R) (text : List ℕ) (line : ℕ)
        → ReadsLines R.follows R.ends from text to → ¬ (IsBadLine R.follows R.ends from text line) }
{}

/// There, the bad line lies behind each good prefix of the text, so it is the one after the longest. And where a good prefix stops early,
/// the line after it is the bad line.
pub fn longest_good_prefix<R: LineReader>()
    ensures behind { LeadsOnce R.follows → (from to : R) (text rest : List ℕ) (good : List (List ℕ)) (line : ℕ)
        → IsGoodPrefix R.follows from text good rest to → IsBadLine R.follows R.ends from text line
        → line_after (length good) ≤ line }
    ensures stops { (from to : R) (text rest : List ℕ) (good : List (List ℕ))
        → IsGoodPrefix R.follows from text good rest to → Stops R.follows R.ends to rest
        → IsBadLine R.follows R.ends from text (line_after (length good)) }
{}
