ghost use Rattle.std.specs.Prelude.{◌≡◌, ◌<◌, ◌≤◌, ℕ, IfOk, IfSome, IfNone, IsTrue};
ghost use Rattle.fractions.specs.Tally.{Passes};
ghost use Rattle.elimination_tallies.specs.Predicates.{predicates_in};
ghost use Rattle.elimination_tallies.specs.Scanning.{AreScanned, tally_at};
ghost use Rattle.affinity.specs.Falls.{IsFall, IsWorth, share_of};
ghost use Rattle.affinity.specs.Kept.{AreComparable, scores_by};
ghost use Rattle.affinity.specs.Near.{AreNearBy, IsNeighbour};

use crate::listing::offer;
use crate::neighbour::Neighbour;
use crate::remaining::Remaining;
use cbi_base::Memory;
use elimination_tallies::Numbers;
use fractions::{confident, importance, millionths};
use std::alloc::Global;

// The importance of a predicate in millionths, where so many runs fail; None exactly where it doesn't pass.
fn share(numbers: &Numbers, failing: u32, predicate: u32) -> Option<u64>
    requires predicate { predicate < predicates_in numbers.now.branches }
    requires scanned { AreScanned numbers.now.tallies failing }
    requires failing { failing ≤ 100000 }
    ensures passes { IfSome result (λ _. Passes (tally_at numbers.now.tallies predicate)) }
    ensures value { IfSome result (λ share. share ≡ share_of (scores_by numbers.now failing) predicate) }
    ensures none { IfNone result (Passes (tally_at numbers.now.tallies predicate) → ⊥) }
{
    let tally = numbers.tally(predicate);
    if !confident(tally) {
        return None;
    }
    Some(millionths(importance(tally, failing)))
}

// What of it counts: nothing where it doesn't pass.
fn worth(numbers: &Numbers, failing: u32, predicate: u32) -> u64
    requires predicate { predicate < predicates_in numbers.now.branches }
    requires scanned { AreScanned numbers.now.tallies failing }
    requires failing { failing ≤ 100000 }
    ensures { IsWorth (scores_by numbers.now failing) predicate result }
{
    match share(numbers, failing, predicate) {
        Some(share) => share,
        None => 0,
    }
}

// Whether a predicate has the same numbers without the runs that were taken away, as where none of these observed its site: then it can't fall.
fn stays(numbers: &Numbers, rest: &Numbers, predicate: u32) -> bool
    requires predicate { predicate < predicates_in numbers.now.branches }
    requires branches { rest.now.branches ≡ numbers.now.branches }
    ensures { IsTrue result → tally_at numbers.now.tallies predicate ≡ tally_at rest.now.tallies predicate }
{
    numbers.tally(predicate) == rest.tally(predicate)
}

// Another predicate as a neighbour; None exactly where it is the same one, doesn't pass, or doesn't fall.
fn neighbour(predicate: u32, other: u32, whole: &Numbers, rest: &Remaining) -> Option<Neighbour>
    requires other { other < predicates_in whole.now.branches }
    requires comparable { AreComparable whole.now rest.now }
    ensures other { IfSome result (λ n. n.predicate ≡ other) }
    ensures some { IfSome result (IsNeighbour (predicates_in whole.now.branches) predicate (scores_by whole.now rest.now.all)
        (scores_by rest.now.numbers rest.now.failing)) }
    ensures none { IfNone result ((fall : ℕ)
        → IsFall (predicates_in whole.now.branches) predicate (scores_by whole.now rest.now.all) (scores_by rest.now.numbers rest.now.failing)
        other fall → 0 < fall → ⊥) }
{
    if other == predicate {
        return None;
    }
    if stays(whole, &rest.numbers, other) {
        return None;
    }
    let Some(before) = share(whole, rest.all, other) else {
        return None;
    };
    let left = worth(&rest.numbers, rest.failing, other);
    if before <= left {
        return None;
    }
    Some(Neighbour {
        predicate: other,
        fall: before - left,
    })
}

/// The first five of the predicates whose importance falls from the numbers over all runs to those over the runs without a predicate's.
pub fn nearest(
    alloc: Global,
    predicate: u32,
    whole: &Numbers,
    rest: &Remaining,
) -> Result<Vec<Neighbour>, Memory>
    requires { AreComparable whole.now rest.now }
    ensures { IfOk result (λ rows. AreNearBy (predicates_in whole.now.branches) predicate (scores_by whole.now rest.now.all)
        (scores_by rest.now.numbers rest.now.failing) rows.items) }
{
    let mut rows = Vec::new(alloc);
    for other in 0..whole.predicates() {
        if let Some(next) = neighbour(predicate, other, whole, rest) {
            offer(&mut rows, next)?;
        }
    }
    Ok(rows)
}
