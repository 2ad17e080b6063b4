ghost use Rattle.std.specs.Prelude.{◌≡◌};

use cbi_base::Memory;

/// Why bytes were not read as a report.
#[derive(Clone, Copy, Debug, PartialEq, Eq)]
pub enum ReportError {
    /// The bytes are the text of no report. The line is 1 plus the number of whole lines in their longest good prefix.
    BadReport { line: u32 },
    Memory,
}

impl From<Memory> for ReportError {
    ghost use Rattle.report_file.specs.declared.error.ReportError.TheVariants as error;

    ghost from_gives = { λ _ e. e ≡ error.Memory };

    fn from(_e: Memory) -> ReportError {
        ReportError::Memory
    }
}
