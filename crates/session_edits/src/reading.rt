ghost use Rattle.std.specs.Prelude.{◌≡◌, ℕ, List, IfOk, Err};
ghost use Rattle.cbi_base.specs.Words.{IsBadLine, IsId};
ghost use Rattle.session_edits.specs.Answers.{EditsReadAs, EditsRefusedAt};
ghost use Rattle.session_edits.specs.Grammar.{EditLineFollows, EditsEnd, edits_start};
ghost use Rattle.session_edits.specs.Spelling.{SpellsEdits};
ghost use Rattle.session_edits.specs.declared.edit.Edit.{Edit};
ghost use Rattle.session_edits.specs.declared.reading.EditsError.TheVariants as error;

use crate::draft::Reading;
use crate::edit::Edit;
use cbi_base::{ProgramId, Seq, TextError, read_lines};
use std::alloc::Global;

/// Why bytes were not read as edits.
#[derive(Clone, Copy, Debug, PartialEq, Eq)]
pub enum EditsError {
    /// The bytes are the text of no edits. The line is 1 plus the number of whole lines in their longest good prefix.
    BadEdits { line: u32 },
    Memory,
}

// What the type of an identity says of it.
fn is_identity(program: ProgramId)
    ensures { IsId program }
{
    let _program = program;
}

/// The edits whose text the bytes are, in their order; each report that is added is of this program. A text has at most 1,073,741,824 bytes, and asks
/// for at most 1,000 rankings.
pub fn read_edits(alloc: Global, program: &ProgramId, bytes: &[u8]) -> Result<Seq<Edit>, EditsError>
    // What is read is spelled so.
    ensures found { IfOk result (SpellsEdits program.now bytes.now) }
    // What is spelled so is read, unless memory runs out: so bytes are refused exactly where they spell no edits.
    ensures only { (edits : List Edit) → SpellsEdits program.now bytes.now edits → EditsReadAs result edits }
    // A refusal names the bad line.
    ensures line { (line : ℕ) → result ≡ Err (error.BadEdits line) → IsBadLine EditLineFollows EditsEnd (edits_start alloc program.now) bytes.now line }
    // Bytes that go wrong at a line are refused there, unless memory runs out.
    ensures line_only { (line : ℕ) → IsBadLine EditLineFollows EditsEnd (edits_start alloc program.now) bytes.now line → EditsRefusedAt result line }
{
    is_identity(*program);
    let mut reading = Reading::new(alloc, *program);
    match read_lines(&mut reading, bytes) {
        Ok(()) => Ok(reading.into_edits()),
        Err(TextError::Bad { line }) => Err(EditsError::BadEdits { line }),
        Err(TextError::Memory) => Err(EditsError::Memory),
    }
}
