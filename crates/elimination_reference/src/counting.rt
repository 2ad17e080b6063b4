ghost use Rattle.std.specs.Prelude.{◌≡◌, ◌≤◌, length};
ghost use Rattle.elimination_tallies.specs.Recount.{failing_runs, is_failing, is_observed, is_true, recount};
ghost use Rattle.elimination_tallies.specs.Tallies.{Allows, tally_changed, counted_as, one_if};
ghost use Rattle.elimination_tallies.specs.declared.numbers.Change.TheVariants.{PutIn};

use crate::entries::{is_observed, is_true};
use elimination_tallies::LabelledRun;
use fractions::Tally;
use report_file::Label;

/// Whether a run with this label counts as failing.
pub fn fails(label: Label) -> bool
    ensures { result ≡ is_failing label }
{
    match label {
        Label::Fail => true,
        Label::Pass | Label::Uncounted => false,
    }
}

/// How many of the runs fail.
pub fn failing_runs(runs: &[LabelledRun]) -> u32
    requires { length runs.now ≤ 100000 }
    ensures value { result ≡ failing_runs runs.now }
    ensures few { result ≤ 100000 }
{
    let mut count = 0;
    let mut rest = runs;
    while let [run, after @ ..] = rest {
        if fails(run.label) {
            count += 1;
        }
        rest = after;
    }
    count
}

// The numbers of a predicate with one more run.
fn with_run(branches: &[bool], predicate: u32, run: &LabelledRun, tally: Tally) -> Tally
    requires sites { length branches.now ≤ 65536 }
    requires room { Allows (PutIn (counted_as run.now.label))
        (one_if (is_observed branches.now predicate run.now)) (one_if (is_true branches.now predicate run.now)) tally }
    ensures { result ≡ tally_changed (PutIn (counted_as run.now.label))
        (one_if (is_observed branches.now predicate run.now)) (one_if (is_true branches.now predicate run.now)) tally }
{
    let truth = u32::from(is_true(branches, predicate, run));
    let observed = u32::from(is_observed(branches, predicate, run));
    match run.label {
        Label::Fail => Tally {
            a: tally.a + truth,
            c: tally.c + observed,
            ..tally
        },
        Label::Pass => Tally {
            b: tally.b + truth,
            d: tally.d + observed,
            ..tally
        },
        Label::Uncounted => tally,
    }
}

/// The four numbers of a predicate over runs of a program, of whose sites it is known whether each is a branch: in how many failing and successful runs it
/// was true, and in how many it was observed.
pub fn recount(branches: &[bool], runs: &[LabelledRun], predicate: u32) -> Tally
    requires sites { length branches.now ≤ 65536 }
    requires runs { length runs.now ≤ 100000 }
    ensures { result ≡ recount branches.now runs.now predicate }
{
    let mut tally = Tally {
        a: 0,
        b: 0,
        c: 0,
        d: 0,
    };
    let mut rest = runs;
    while let [run, after @ ..] = rest {
        tally = with_run(branches, predicate, run, tally);
        rest = after;
    }
    tally
}
