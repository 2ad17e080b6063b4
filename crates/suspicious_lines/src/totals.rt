ghost use Rattle.std.specs.Prelude.{◌≡◌, ◌+◌, ◌≤◌};
ghost use Rattle.elimination_tallies.specs.Recount.{failing_runs, is_successful, runs_of};
ghost use Rattle.elimination_tallies.specs.Tallies.{one_if};
ghost use Rattle.suspicious_lines.specs.Suspects.{successful_runs};

use collector::Collection;
use elimination_tallies::{failures, report_after};
use report_file::Label;

/// How many runs fail, and how many are successful.
#[derive(Clone, Copy, Debug, PartialEq, Eq)]
pub struct Totals {
    pub failing: u32,
    pub successful: u32,
}

// How many successful runs one with this label is.
fn successes(label: Label) -> u32
    ensures { result ≡ one_if (is_successful label) }
{
    match label {
        Label::Pass => 1,
        Label::Fail | Label::Uncounted => 0,
    }
}

/// How many runs of a collection fail, and how many are successful.
pub fn totals_of(collection: &Collection) -> Totals
    ensures failing { result.failing ≡ failing_runs (runs_of collection.now.reports) }
    ensures successful { result.successful ≡ successful_runs (runs_of collection.now.reports) }
    ensures few { result.failing + result.successful ≤ 100000 }
{
    collection.keeps();
    let _held = collection.reports_held();
    let mut failing = 0u32;
    let mut successful = 0u32;
    let mut run = 0;
    while let Some(report) = report_after(collection, run) {
        run = report.run;
        let fails = failures(report.label);
        let succeeds = successes(report.label);
        failing += fails;
        successful += succeeds;
    }
    Totals {
        failing,
        successful,
    }
}
