ghost use Rattle.std.specs.Prelude.{◌≡◌, ◌++◌, decimal, OnOk, OnErr};
ghost use Rattle.cbi_base.specs.ProgramId.{text_of_id};
ghost use Rattle.cbi_base.specs.Refusal.{BeginsAs, refusal_number, refusal_name, details_of, refusal_line};

use crate::decimal::push_decimal;
use crate::identity::{ProgramId, id_text};
use crate::memory::Memory;

/// Why a command is refused. Lines and files count from 1; `kind` is that of the fault of types, and a site is named by its number.
#[derive(Clone, Copy, Debug, PartialEq, Eq)]
pub enum Refusal {
    BadByte { line: u32 },
    BadToken { line: u32 },
    Syntax { line: u32 },
    BadType { kind: u8, line: u32 },
    TooLarge,
    TooManySites,
    BadProgram { line: u32 },
    BadBank { line: u32 },
    BadReport { file: u64, line: u32 },
    Foreign { ours: ProgramId, theirs: ProgramId },
    Conflict { run: u32 },
    TooManyReports { run: u32 },
    TooManyMarks { run: u32 },
    BadCollection { file: u64, line: u32 },
    InputTooLarge,
    NoSite { run: u32, site: u32 },
    BadEdits { line: u32 },
    Absent { run: u32 },
    NotPart,
    BadList { file: u64, line: u32 },
    /// The input that this line of a list names is too large.
    LargeInput { line: u32 },
}

fn push_text(out: &mut Vec<u8>, words: &[u8]) -> Result<(), Memory>
    ensures ok { OnOk result (out.new.items ≡ out.old.items ++ words.now) }
    ensures err { OnErr result (out.new.items ≡ out.old.items) }
{
    out.extend_from_slice(words)?;
    Ok(())
}

// After `Memory` the bytes begin as before.
fn push_number(out: &mut Vec<u8>, words: &[u8], number: u64) -> Result<(), Memory>
    ensures ok { OnOk result (out.new.items ≡ out.old.items ++ (words.now ++ decimal number)) }
    ensures err { OnErr result (BeginsAs out.old.items out.new.items) }
{
    out.extend_from_slice(words)?;
    push_decimal(out, u128::from(number))?;
    Ok(())
}

// After `Memory` the bytes begin as before.
fn push_id(out: &mut Vec<u8>, words: &[u8], id: &ProgramId) -> Result<(), Memory>
    ensures ok { OnOk result (out.new.items ≡ out.old.items ++ (words.now ++ text_of_id id.now)) }
    ensures err { OnErr result (BeginsAs out.old.items out.new.items) }
{
    out.extend_from_slice(words)?;
    out.extend_from_slice(id_text(id).as_slice())?;
    Ok(())
}

impl Refusal {
    /// The number that messages show.
    pub fn number(&self) -> u32
        ensures { result ≡ refusal_number self.now }
    {
        match self {
            Refusal::BadByte { .. } => 10,
            Refusal::BadToken { .. } => 11,
            Refusal::Syntax { .. } => 12,
            Refusal::BadType { .. } => 15,
            Refusal::TooLarge => 16,
            Refusal::TooManySites => 17,
            Refusal::BadProgram { .. } => 20,
            Refusal::BadBank { .. } => 21,
            Refusal::BadReport { .. } => 22,
            Refusal::Foreign { .. } => 23,
            Refusal::Conflict { .. } => 24,
            Refusal::TooManyReports { .. } => 25,
            Refusal::TooManyMarks { .. } => 26,
            Refusal::BadCollection { .. } => 27,
            Refusal::InputTooLarge | Refusal::LargeInput { .. } => 28,
            Refusal::NoSite { .. } => 29,
            Refusal::BadEdits { .. } => 30,
            Refusal::Absent { .. } => 31,
            Refusal::NotPart => 32,
            Refusal::BadList { .. } => 33,
        }
    }

    fn name(&self) -> &'static [u8]
        ensures { result.now ≡ refusal_name self.now }
    {
        match self {
            Refusal::BadByte { .. } => b"BadByte",
            Refusal::BadToken { .. } => b"BadToken",
            Refusal::Syntax { .. } => b"Syntax",
            Refusal::BadType { .. } => b"BadType",
            Refusal::TooLarge => b"TooLarge",
            Refusal::TooManySites => b"TooManySites",
            Refusal::BadProgram { .. } => b"BadProgram",
            Refusal::BadBank { .. } => b"BadBank",
            Refusal::BadReport { .. } => b"BadReport",
            Refusal::Foreign { .. } => b"Foreign",
            Refusal::Conflict { .. } => b"Conflict",
            Refusal::TooManyReports { .. } => b"TooManyReports",
            Refusal::TooManyMarks { .. } => b"TooManyMarks",
            Refusal::BadCollection { .. } => b"BadCollection",
            Refusal::InputTooLarge | Refusal::LargeInput { .. } => b"InputTooLarge",
            Refusal::NoSite { .. } => b"NoSite",
            Refusal::BadEdits { .. } => b"BadEdits",
            Refusal::Absent { .. } => b"Absent",
            Refusal::NotPart => b"NotPart",
            Refusal::BadList { .. } => b"BadList",
        }
    }

    // After `Memory` the bytes begin as before.
    fn push_details(&self, out: &mut Vec<u8>) -> Result<(), Memory>
        ensures ok { OnOk result (out.new.items ≡ out.old.items ++ details_of self.now) }
        ensures err { OnErr result (BeginsAs out.old.items out.new.items) }
    {
        match self {
            Refusal::TooLarge | Refusal::TooManySites | Refusal::InputTooLarge | Refusal::NotPart =>
                Ok(()),
            Refusal::BadByte { line }
            | Refusal::BadToken { line }
            | Refusal::Syntax { line }
            | Refusal::BadProgram { line }
            | Refusal::BadBank { line }
            | Refusal::BadEdits { line }
            | Refusal::LargeInput { line } => push_number(out, b" line ", u64::from(*line)),
            Refusal::Conflict { run }
            | Refusal::TooManyReports { run }
            | Refusal::TooManyMarks { run }
            | Refusal::Absent { run } => { push_number(out, b" run ", u64::from(*run)) }
            Refusal::BadType { kind, line } => {
                push_number(out, b" kind ", u64::from(*kind))?;
                push_number(out, b" line ", u64::from(*line))
            }
            Refusal::BadReport { file, line }
            | Refusal::BadCollection { file, line }
            | Refusal::BadList { file, line } => {
                push_number(out, b" file ", *file)?;
                push_number(out, b" line ", u64::from(*line))
            }
            Refusal::Foreign { ours, theirs } => {
                push_id(out, b" ours ", ours)?;
                push_id(out, b" theirs ", theirs)
            }
            Refusal::NoSite { run, site } => {
                push_number(out, b" run ", u64::from(*run))?;
                push_number(out, b" site ", u64::from(*site))
            }
        }
    }

    // After `Memory` the bytes begin as before.
    fn push_parts(&self, out: &mut Vec<u8>) -> Result<(), Memory>
        ensures ok { OnOk result (out.new.items ≡ out.old.items ++ refusal_line self.now) }
        ensures err { OnErr result (BeginsAs out.old.items out.new.items) }
    {
        push_number(out, b"cbi: refusal ", u64::from(self.number()))?;
        push_text(out, b" ")?;
        push_text(out, self.name())?;
        self.push_details(out)?;
        push_text(out, b"\n")
    }

    /// Appends the whole line that tells of the refusal. After `Memory` the bytes are as before.
    pub fn push_line(&self, out: &mut Vec<u8>) -> Result<(), Memory>
        ensures ok { OnOk result (out.new.items ≡ out.old.items ++ refusal_line self.now) }
        ensures err { OnErr result (out.new.items ≡ out.old.items) }
    {
        let before = out.len();
        let pushed = self.push_parts(out);
        if pushed.is_err() {
            out.truncate(before);
        }
        pushed
    }
}
