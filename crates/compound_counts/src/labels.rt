ghost use Rattle.std.specs.Prelude.{◌≡◌, ◌≤◌, if◌then◌else◌};
ghost use Rattle.elimination_tallies.specs.Recount.{failing_runs, runs_of};
ghost use Rattle.compound_counts.specs.Runs.{is_counted_label, run_count};

use collector::Collection;
use report_file::Label;

/// Whether a run with this label counts as failing, or as successful.
pub fn counts(failing: bool, label: Label) -> bool
    ensures { result ≡ is_counted_label failing label }
{
    match label {
        Label::Fail => failing,
        Label::Pass => !failing,
        Label::Uncounted => false,
    }
}

// How many counted runs one with this label is.
fn counted(failing: bool, label: Label) -> u32
    ensures { result ≡ (if is_counted_label failing label then 1 else 0) }
{
    if counts(failing, label) { 1 } else { 0 }
}

/// How many runs of the collection do.
pub fn run_count(collection: &Collection, failing: bool) -> u32
    ensures value { result ≡ run_count failing (runs_of collection.now.reports) }
    ensures few { result ≤ 100000 }
{
    collection.keeps();
    let _held = collection.reports_held();
    let mut count = 0;
    let mut last = 0;
    while let Some(report) = collection.next_report(last) {
        count += counted(failing, report.label);
        last = report.run;
    }
    count
}

/// How many runs of the collection fail.
pub fn failing_runs(collection: &Collection) -> u32
    ensures value { result ≡ failing_runs (runs_of collection.now.reports) }
    ensures few { result ≤ 100000 }
{
    run_count(collection, true)
}
