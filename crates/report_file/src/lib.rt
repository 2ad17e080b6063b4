//! Reports of runs: what a report says, its text, and how it is read.
#![tactic(auto)]

mod draft;
mod error;
mod label;
mod laws;
mod lines;
mod making;
mod reading;
mod report;
mod run_line;
mod writing;

pub use draft::Version;
pub use error::ReportError;
pub use label::{Label, label_of};
pub use laws::{made_entries, one_report, one_state, written_report};
pub use lines::{entry_in, program_in};
pub use making::make_report;
pub use reading::read_report;
pub use report::{Entry, Report, RunSummary};
pub use run_line::{RunLine, report_lines, run_line_in};
pub use writing::write_report;
