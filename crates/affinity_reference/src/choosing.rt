ghost use Rattle.std.specs.Prelude.{◌≡◌, ◌<◌, ◌≤◌, length, true, false, All};
ghost use Rattle.affinity.specs.declared.neighbour.Neighbour.{Neighbour};
ghost use Rattle.elimination_tallies.specs.Predicates.{predicates_in};
ghost use Rattle.affinity.specs.Falls.{scores_over};
ghost use Rattle.affinity.specs.Near.{IsNeighbour, StandsBefore};
ghost use Rattle.affinity_reference.specs.Choosing.{IsNext, better_of};

use crate::falling::neighbour;
use affinity::Neighbour;
use elimination_reference::predicates_in;
use elimination_tallies::LabelledRun;

fn stands_before(first: Neighbour, second: Neighbour) -> bool
    ensures yes { result ≡ true → StandsBefore first second }
    ensures no { result ≡ false → StandsBefore first second → ⊥ }
{
    first.fall > second.fall || first.fall == second.fall && first.predicate < second.predicate
}

// Whether all of these stand before it.
fn is_behind(rows: &[Neighbour], next: Neighbour) -> bool
    ensures yes { result ≡ true → All (λ (n : Neighbour). StandsBefore n next) rows.now }
    ensures no { result ≡ false → All (λ (n : Neighbour). StandsBefore n next) rows.now → ⊥ }
{
    for row in rows {
        if !stands_before(*row, next) {
            return false;
        }
    }
    true
}

// The one with the greater fall, or the earlier one where they are equal.
fn better(best: Option<Neighbour>, next: Neighbour) -> Neighbour
    ensures { result ≡ better_of best next }
{
    let Some(best) = best else {
        return next;
    };
    if best.fall < next.fall { next } else { best }
}

/// The first of the neighbours that stand behind all of these; None exactly where none does.
pub fn next_behind(
    branches: &[bool],
    runs: &[LabelledRun],
    left: &[LabelledRun],
    predicate: u32,
    rows: &[Neighbour],
) -> Option<Neighbour>
    requires sites { length branches.now ≤ 65536 }
    requires runs { length runs.now ≤ 100000 }
    requires left { length left.now ≤ 100000 }
    ensures { IsNext (IsNeighbour (predicates_in branches.now) predicate (scores_over branches.now runs.now) (scores_over branches.now left.now))
        rows.now result }
{
    let mut best = None;
    for other in 0..predicates_in(branches) {
        if let Some(next) = neighbour(branches, runs, left, predicate, other) {
            if is_behind(rows, next) {
                best = Some(better(best, next));
            }
        }
    }
    best
}
