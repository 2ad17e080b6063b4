ghost use Rattle.std.specs.Prelude.{◌≡◌, [], ◌∷◌, ◌<◌, ◌^◌, IfOk, IfSome, MatchOption};
ghost use Rattle.elimination_tallies.specs.Recount.{run_of_report};
ghost use Rattle.elimination_tallies.specs.Runs.{AreEntriesOf, reports_after};

use crate::labelled::LabelledRun;
use cbi_base::{Memory, Seq};
use collector::Collection;
use report_file::Report;
use std::alloc::Global;

/// The first report of those with a greater run; None exactly where there is none.
pub fn report_after(collection: &Collection, run: u32) -> Option<&Report>
    ensures value { MatchOption result (reports_after run collection.now.reports ≡ [])
        (λ r. reports_after run collection.now.reports ≡ r.now ∷ reports_after r.now.run collection.now.reports) }
    ensures later { IfSome result (λ r. run < r.now.run) }
    ensures small { IfSome result (λ r. r.now.run < 2 ^ 32) }
    ensures entries { IfSome result (λ r. AreEntriesOf collection.now.branches r.now.entries) }
{
    collection.keeps();
    match collection.next_report(run) {
        None => None,
        Some(report) => Some(report),
    }
}

/// What a ranking needs of a report.
pub fn labelled_run(alloc: Global, report: &Report) -> Result<LabelledRun, Memory>
    ensures { IfOk result (λ r. r ≡ run_of_report report.now) }
{
    let entries = Vec::from_slice(alloc, report.entries.as_slice())?;
    Ok(LabelledRun {
        label: report.label,
        entries: Seq::from_vec(entries),
    })
}
