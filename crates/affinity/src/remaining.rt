ghost use Rattle.std.specs.Prelude.{◌≡◌, IfOk};
ghost use Rattle.elimination_tallies.specs.Recount.{runs_of};
ghost use Rattle.elimination_tallies.specs.Tallies.{AreRecounts};
ghost use Rattle.affinity.specs.Kept.{IsWithout};

use cbi_base::Memory;
use collector::Collection;
use elimination_tallies::{Change, Numbers, counted_as, failures, is_true, report_after};
use std::alloc::Global;

/// The numbers over the runs in which a predicate wasn't true, how many of these fail, and how many of all runs.
#[derive(Drop)]
pub struct Remaining {
    pub numbers: Numbers,
    pub failing: u32,
    pub all: u32,
}

/// The numbers over a collection's runs without those in which the predicate was true: these are taken out of the numbers over all runs, in one pass
/// over the reports.
pub fn without(
    alloc: Global,
    collection: &Collection,
    whole: &Numbers,
    predicate: u32,
) -> Result<Remaining, Memory>
    requires { AreRecounts collection.now.branches (runs_of collection.now.reports) whole.now }
    ensures { IfOk result (IsWithout collection.now.branches (runs_of collection.now.reports) predicate) }
{
    collection.keeps();
    let mut numbers = whole.copy(alloc)?;
    let mut failing = 0u32;
    let mut all = 0u32;
    let mut run = 0;
    while let Some(report) = report_after(collection, run) {
        run = report.run;
        let fails = failures(report.label);
        all += fails;
        if is_true(predicate, whole, report.entries.as_slice()) {
            let counted = counted_as(report.label);
            numbers.change_all(report.entries.as_slice(), Change::TakeOut { counted });
        } else {
            failing += fails;
        }
    }
    Ok(Remaining {
        numbers,
        failing,
        all,
    })
}
