ghost use Rattle.std.specs.Prelude.{◌≡◌, ◌≤◌, ℕ, Some, if◌then◌else◌, IfSome, IfNone, IsTrue, MatchOption};
ghost use Rattle.fractions.specs.declared.tally.Tally.{Tally};
ghost use Rattle.fractions.specs.Fraction.{IsFraction};
ghost use Rattle.fractions.specs.Tally.{IsTally, Passes, spread_of, surplus_of};
ghost use Rattle.elimination_tallies.specs.Predicates.{predicates_in};
ghost use Rattle.elimination_tallies.specs.Leading.{Leads, NonePass};
ghost use Rattle.elimination_tallies.specs.Scanning.{AreScanned, IsCandidate, is_greater_fraction, tally_at};
ghost use Rattle.elimination_tallies.specs.Surpassing.{CannotLead, IsNoGreater};

use crate::listed::Listed;
use crate::numbers::Numbers;
use fractions::{Fraction, Tally, compare, confident, importance};
use std::cmp::Ordering;

/// A passing predicate with its numbers and its importance.
#[derive(Clone, Copy)]
struct Candidate {
    predicate: u32,
    tally: Tally,
    importance: Fraction,
}

// The one with the greater importance, or the earlier one where they are equal.
fn better(best: Option<Candidate>, next: Candidate) -> Candidate
    requires best { IfSome best (λ b. IsFraction b.importance) }
    requires next { IsFraction next.importance }
    ensures { MatchOption best (result ≡ next) (λ b. result ≡ (if is_greater_fraction next.importance b.importance then next else b)) }
{
    let Some(best) = best else {
        return next;
    };
    if compare(next.importance, best.importance) == Ordering::Greater {
        next
    } else {
        best
    }
}

// The top of Increase, or 0 where that isn't positive.
fn surplus(tally: Tally) -> u64
    ensures { result ≡ surplus_of tally }
{
    let gain = u64::from(tally.a) * u64::from(tally.d);
    let loss = u64::from(tally.b) * u64::from(tally.c);
    gain.saturating_sub(loss)
}

// The bottom of Increase.
fn spread(tally: Tally) -> u64
    requires { IsTally tally }
    ensures { result ≡ spread_of tally }
{
    u64::from(tally.a + tally.b) * u64::from(tally.c + tally.d)
}

// Whether the numbers can't give a greater importance than the others, however many runs fail. It takes no logarithm.
fn is_no_greater(tally: Tally, other: Tally) -> bool
    requires tally { IsTally tally }
    requires other { IsTally other }
    ensures { IsTrue result → IsNoGreater tally other }
{
    if tally.a <= 1 {
        return true;
    }
    if tally.a > other.a {
        return false;
    }
    let own = u128::from(surplus(tally)) * u128::from(spread(other));
    own <= u128::from(surplus(other)) * u128::from(spread(tally))
}

// Whether a predicate can't lead: it doesn't pass, or can't have a greater importance than the best so far.
fn stays_behind(tally: Tally, best: Option<Candidate>) -> bool
    requires tally { IsTally tally }
    requires best { IfSome best (λ b. IsTally b.tally) }
    ensures { IsTrue result → CannotLead tally best }
{
    if surplus(tally) == 0 {
        return true;
    }
    match best {
        None => false,
        Some(best) => is_no_greater(tally, best.tally),
    }
}

// A predicate as a candidate; None exactly where it doesn't pass.
fn candidate_of(predicate: u32, tally: Tally, failing: u32) -> Option<Candidate>
    requires tally { IsTally tally }
    requires observed { tally.c ≤ failing }
    requires failing { failing ≤ 100000 }
    ensures none { IfNone result (Passes tally → ⊥) }
    ensures some { IfSome result (IsCandidate predicate tally failing) }
{
    if !confident(tally) {
        return None;
    }
    Some(Candidate {
        predicate,
        tally,
        importance: importance(tally, failing),
    })
}

/// The leader among the predicates with these numbers, where so many runs fail; None exactly where none passes.
pub fn leader_in(numbers: &Numbers, failing: u32) -> Option<Listed>
    requires tallies { AreScanned numbers.now.tallies failing }
    requires failing { failing ≤ 100000 }
    ensures none { IfNone result (NonePass (tally_at numbers.now.tallies) (predicates_in numbers.now.branches)) }
    ensures leads { IfSome result (λ row. Leads (tally_at numbers.now.tallies) (predicates_in numbers.now.branches) failing row.predicate) }
    ensures tally { IfSome result (λ row. (row.tally ≡ tally_at numbers.now.tallies row.predicate) × (row.failing ≡ failing)) }
{
    let mut best = None;
    for predicate in 0..numbers.predicates() {
        let tally = numbers.tally(predicate);
        if stays_behind(tally, best) {
            continue;
        }
        let Some(next) = candidate_of(predicate, tally, failing) else {
            continue;
        };
        best = Some(better(best, next));
    }
    let leader = best?;
    Some(Listed {
        predicate: leader.predicate,
        tally: leader.tally,
        failing,
    })
}
