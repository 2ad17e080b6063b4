ghost use Rattle.std.specs.Prelude.{◌≡◌, ◌<◌, ◌≤◌, ℕ, length, IfSome, IfNone};
ghost use Rattle.fractions.specs.Tally.{Passes};
ghost use Rattle.elimination_tallies.specs.Predicates.{predicates_in};
ghost use Rattle.elimination_tallies.specs.Recount.{recount};
ghost use Rattle.affinity.specs.Falls.{IsFall, IsWorth, scores_over, share_of};
ghost use Rattle.affinity.specs.Near.{IsNeighbour};

use affinity::Neighbour;
use elimination_reference::{failing_runs, recount};
use elimination_tallies::LabelledRun;
use fractions::{confident, importance, millionths};

// The importance of a predicate over runs in millionths; None exactly where it doesn't pass.
fn share(branches: &[bool], runs: &[LabelledRun], predicate: u32) -> Option<u64>
    requires sites { length branches.now ≤ 65536 }
    requires runs { length runs.now ≤ 100000 }
    ensures passes { IfSome result (λ _. Passes (recount branches.now runs.now predicate)) }
    ensures value { IfSome result (λ share. share ≡ share_of (scores_over branches.now runs.now) predicate) }
    ensures none { IfNone result (Passes (recount branches.now runs.now predicate) → ⊥) }
{
    let tally = recount(branches, runs, predicate);
    if !confident(tally) {
        return None;
    }
    Some(millionths(importance(tally, failing_runs(runs))))
}

// What of it counts: nothing where it doesn't pass.
fn worth(branches: &[bool], runs: &[LabelledRun], predicate: u32) -> u64
    requires sites { length branches.now ≤ 65536 }
    requires runs { length runs.now ≤ 100000 }
    ensures { IsWorth (scores_over branches.now runs.now) predicate result }
{
    match share(branches, runs, predicate) {
        Some(share) => share,
        None => 0,
    }
}

/// Another predicate as a neighbour; None exactly where it is the same one, doesn't pass, or doesn't fall.
pub fn neighbour(
    branches: &[bool],
    runs: &[LabelledRun],
    left: &[LabelledRun],
    predicate: u32,
    other: u32,
) -> Option<Neighbour>
    requires sites { length branches.now ≤ 65536 }
    requires runs { length runs.now ≤ 100000 }
    requires left { length left.now ≤ 100000 }
    requires other { other < predicates_in branches.now }
    ensures other { IfSome result (λ n. n.predicate ≡ other) }
    ensures some { IfSome result (IsNeighbour (predicates_in branches.now) predicate (scores_over branches.now runs.now) (scores_over branches.now left.now)) }
    ensures none { IfNone result ((fall : ℕ)
        → IsFall (predicates_in branches.now) predicate (scores_over branches.now runs.now) (scores_over branches.now left.now) other fall → 0 < fall → ⊥) }
{
    if other == predicate {
        return None;
    }
    let Some(before) = share(branches, runs, other) else {
        return None;
    };
    let rest = worth(branches, left, other);
    if before <= rest {
        return None;
    }
    Some(Neighbour {
        predicate: other,
        fall: before - rest,
    })
}
