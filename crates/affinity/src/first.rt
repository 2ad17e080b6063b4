ghost use Rattle.std.specs.Prelude.{◌≡◌, ◌<◌};
ghost use Rattle.elimination_tallies.specs.Recount.{recount, runs_of};
ghost use Rattle.affinity.specs.Cards.{IsLeastOf, failing_true};

use collector::Collection;
use elimination_tallies::{Numbers, fails, is_true, report_after};

/// The least number of a failing run in which the predicate was true, where there is one. The numbers tell only which sites are branches.
pub fn first_failing(collection: &Collection, numbers: &Numbers, predicate: u32) -> u32
    requires branches { numbers.now.branches ≡ collection.now.branches }
    requires some { 0 < (recount collection.now.branches (runs_of collection.now.reports) predicate).a }
    ensures { IsLeastOf (failing_true collection.now.branches collection.now.reports predicate) result }
{
    collection.keeps();
    let mut run = 0;
    while let Some(report) = report_after(collection, run) {
        run = report.run;
        if fails(report.label) && is_true(predicate, numbers, report.entries.as_slice()) {
            return run;
        }
    }
    run
}
