ghost use Rattle.std.specs.Prelude.{◌≡◌, ◌≤◌, ◌+◌, ◌<◌, length, MatchOption};
ghost use Rattle.elimination_tallies.specs.Leading.{IsLeader, NonePasses};
ghost use Rattle.elimination_tallies.specs.Predicates.{predicates_in};
ghost use Rattle.elimination_tallies.specs.Recount.{failing_runs, recount};
ghost use Rattle.elimination_tallies.specs.Scanning.{is_greater_fraction};
ghost use Rattle.fractions.specs.Fraction.{IsFraction};
ghost use Rattle.elimination_reference.specs.Best.{AreFractions, IsBest};

use crate::counting::{failing_runs, recount};
use crate::entries::predicates_in;
use elimination_tallies::{LabelledRun, Listed};
use fractions::{Fraction, compare, confident, importance};
use std::cmp::Ordering;

// Whether the first of two values is greater.
fn exceeds(left: Fraction, right: Fraction) -> bool
    requires left { IsFraction left }
    requires right { IsFraction right }
    ensures { result ≡ is_greater_fraction left right }
{
    compare(left, right) == Ordering::Greater
}

// The leader of the predicates up to this one, of which `best` is the leader of those before it.
fn with_predicate(
    branches: &[bool],
    runs: &[LabelledRun],
    failing: u32,
    best: Option<Listed>,
    predicate: u32,
) -> Option<Listed>
    requires sites { length branches.now ≤ 65536 }
    requires runs { length runs.now ≤ 100000 }
    requires failing { failing ≡ failing_runs runs.now }
    requires best { IsBest (recount branches.now runs.now) predicate failing best }
    requires fractions { AreFractions (recount branches.now runs.now) predicate failing }
    ensures best { IsBest (recount branches.now runs.now) (predicate + 1) failing result }
    ensures fractions { AreFractions (recount branches.now runs.now) (predicate + 1) failing }
{
    let next = Listed {
        predicate,
        tally: recount(branches, runs, predicate),
        failing,
    };
    if !confident(next.tally) {
        return best;
    }
    let value = importance(next.tally, failing);
    let Some(best) = best else {
        return Some(next);
    };
    if exceeds(value, importance(best.tally, failing)) {
        return Some(next);
    }
    Some(best)
}

/// The leader over runs of a program, of whose sites it is known whether each is a branch; None exactly where no predicate passes.
pub fn leader(branches: &[bool], runs: &[LabelledRun]) -> Option<Listed>
    requires sites { length branches.now ≤ 65536 }
    requires runs { length runs.now ≤ 100000 }
    ensures { MatchOption result (NonePasses branches.now runs.now) (IsLeader branches.now runs.now) }
{
    let failing = failing_runs(runs);
    let mut best = None;
    for predicate in 0..predicates_in(branches) {
        best = with_predicate(branches, runs, failing, best, predicate);
    }
    best
}
