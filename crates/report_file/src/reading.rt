ghost use Rattle.std.specs.Prelude.{◌≡◌, ℕ, IfOk, Err};
ghost use Rattle.cbi_base.specs.Lines.{IsBadLine};
ghost use Rattle.report_file.specs.Answers.{ReportReadAs, ReportRefusedAt};
ghost use Rattle.report_file.specs.Grammar.{ReportLineFollows, ReportEnds, report_start};
ghost use Rattle.report_file.specs.Report.{IsReport};
ghost use Rattle.report_file.specs.Spelling.{SpellsReport};
ghost use Rattle.report_file.specs.declared.error.ReportError.TheVariants as error;
ghost use Rattle.report_file.specs.declared.report.Report.{Report};

use crate::draft::Draft;
use crate::error::ReportError;
use crate::report::Report;
use cbi_base::{TextError, read_lines};
use std::alloc::Global;

/// The report whose text the bytes are, in either version.
pub fn read_report(alloc: Global, bytes: &[u8]) -> Result<Report, ReportError>
    // What is read is spelled so.
    ensures found { IfOk result (SpellsReport bytes.now) }
    // It is a report that has a text.
    ensures is_report { IfOk result IsReport }
    // What is spelled so is read, unless memory runs out: so bytes are refused exactly where they spell no report.
    ensures only { (r : Report) → SpellsReport bytes.now r → ReportReadAs result r }
    // A refusal names the bad line.
    ensures line { (line : ℕ) → result ≡ Err (error.BadReport line) → IsBadLine ReportLineFollows ReportEnds report_start bytes.now line }
    // Bytes that go wrong at a line are refused there, unless memory runs out.
    ensures line_only { (line : ℕ) → IsBadLine ReportLineFollows ReportEnds report_start bytes.now line → ReportRefusedAt result line }
{
    let mut draft = Draft::new(alloc);
    match read_lines(&mut draft, bytes) {
        Ok(()) => Ok(draft.into_report()),
        Err(TextError::Bad { line }) => Err(ReportError::BadReport { line }),
        Err(TextError::Memory) => Err(ReportError::Memory),
    }
}
