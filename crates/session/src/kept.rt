ghost use Rattle.std.specs.Prelude.{◌≡◌, IfSome};
ghost use Rattle.std.specs.Option.{option_copied};
ghost use Rattle.collector.specs.Collected.{report_at, without_report};
ghost use Rattle.session.specs.Session.{AreKept};
ghost use Rattle.elimination_tallies.specs.Recount.{is_failing};
ghost use Rattle.elimination_tallies.specs.Runs.{AreEntriesOf};
ghost use Rattle.elimination_tallies.specs.Tallies.{one_if};

use collector::Collection;
use elimination_tallies::{Change, Numbers, counted_as};
use report_file::{Label, Report};

/// What is kept of the runs that are held: the numbers of all predicates, and how many of the runs fail.
#[derive(Drop)]
pub struct Kept {
    pub numbers: Numbers,
    pub failing: u32,
}

// The report of a run.
fn report_of(collection: &Collection, run: u32) -> Option<&Report>
    ensures value { option_copied result ≡ report_at run collection.now.reports }
    ensures entries { IfSome result (λ r. AreEntriesOf collection.now.branches r.now.entries) }
{
    collection.keeps();
    if run == 0 {
        return None;
    }
    let report = collection.next_report(run - 1)?;
    if report.run == run {
        Some(report)
    } else {
        None
    }
}

// How many failing runs a run with this label is.
fn fails(label: Label) -> u32
    ensures { result ≡ one_if (is_failing label) }
{
    match label {
        Label::Fail => 1,
        Label::Pass | Label::Uncounted => 0,
    }
}

/// Counts the run, if it is held; it wasn't counted before.
pub fn put_in(collection: &Collection, kept: &mut Kept, run: u32)
    requires { AreKept collection.now.branches (without_report run collection.now.reports) kept.old }
    ensures { AreKept collection.now.branches collection.now.reports kept.new }
{
    collection.keeps();
    let Some(report) = report_of(collection, run) else {
        return;
    };
    let counted = counted_as(report.label);
    let entries = report.entries.as_slice();
    kept.numbers.change_all(entries, Change::PutIn { counted });
    kept.failing += fails(report.label);
}

/// Counts the run no longer.
pub fn take_out(collection: &Collection, kept: &mut Kept, run: u32)
    requires { AreKept collection.now.branches collection.now.reports kept.old }
    ensures { AreKept collection.now.branches (without_report run collection.now.reports) kept.new }
{
    collection.keeps();
    let Some(report) = report_of(collection, run) else {
        return;
    };
    let counted = counted_as(report.label);
    let entries = report.entries.as_slice();
    kept.numbers
        .change_all(entries, Change::TakeOut { counted });
    kept.failing -= fails(report.label);
}
