ghost use Rattle.std.specs.Prelude.{◌≡◌, true, Some, IfOk};
ghost use Rattle.std.specs.List.{find, list_any};
ghost use Rattle.bug_rounds.specs.Rounds.{is_own_run};
ghost use Rattle.bug_rounds.specs.Live.{failing_numbers, is_own_number, others_among};

use cbi_base::Memory;
use collector::Collection;
use elimination_tallies::{Numbers, fails, is_true, report_after};
use report_file::Report;
use std::alloc::Global;

/// The numbers of the failing runs of a collection.
pub fn failing_numbers(alloc: Global, collection: &Collection) -> Result<Vec<u32>, Memory>
    ensures { IfOk result (λ live. live.items ≡ failing_numbers collection.now.reports) }
{
    collection.keeps();
    let mut live = Vec::new(alloc);
    let mut run = 0;
    while let Some(report) = report_after(collection, run) {
        run = report.run;
        if fails(report.label) {
            live.push(run)?;
        }
    }
    Ok(live)
}

// Whether a report is of a leader's own run: a failing one in which the leader was true. Of the numbers only the kinds of the sites are looked at.
fn is_own_run(numbers: &Numbers, leader: u32, report: &Report) -> bool
    ensures { result ≡ is_own_run numbers.now.branches leader report.now }
{
    fails(report.label) && is_true(leader, numbers, report.entries.as_slice())
}

// Whether the report with this number is of a leader's own run.
fn is_own_number(collection: &Collection, numbers: &Numbers, leader: u32, run: u32) -> bool
    requires { numbers.now.branches ≡ collection.now.branches }
    ensures { result ≡ is_own_number collection.now.branches collection.now.reports leader run }
{
    collection.keeps();
    let Some(report) = report_after(collection, run.saturating_sub(1)) else {
        return false;
    };
    if report.run != run {
        return false;
    }
    is_own_run(numbers, leader, report)
}

/// The number of the first of these runs that is a leader's own, where there is one.
pub fn first_own(collection: &Collection, numbers: &Numbers, leader: u32, live: &[u32]) -> u32
    requires branches { numbers.now.branches ≡ collection.now.branches }
    requires some { list_any (is_own_number collection.now.branches collection.now.reports leader) live.now ≡ true }
    ensures { find (is_own_number collection.now.branches collection.now.reports leader) live.now ≡ Some result }
{
    for run in live {
        if is_own_number(collection, numbers, leader, *run) {
            return *run;
        }
    }
    0
}

/// The numbers of those among these runs that aren't a leader's own.
pub fn others(
    alloc: Global,
    collection: &Collection,
    numbers: &Numbers,
    leader: u32,
    live: &[u32],
) -> Result<Vec<u32>, Memory>
    requires { numbers.now.branches ≡ collection.now.branches }
    ensures { IfOk result (λ left. left.items ≡ others_among collection.now.branches collection.now.reports leader live.now) }
{
    let mut left = Vec::new(alloc);
    for run in live {
        if !is_own_number(collection, numbers, leader, *run) {
            left.push(*run)?;
        }
    }
    Ok(left)
}
