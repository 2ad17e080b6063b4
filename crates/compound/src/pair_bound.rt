ghost use Rattle.std.specs.Prelude.{◌≡◌, ◌≤◌};
ghost use Rattle.fractions.specs.declared.tally.Tally.{Tally};
ghost use Rattle.fractions.specs.Fraction.{IsAtMost, IsFraction};
ghost use Rattle.fractions.specs.Tally.{IsTally, Passes, importance_of};
ghost use Rattle.compound.specs.Bound.{bound_of};

use fractions::{Fraction, log_fixed};

/// What the importance of a pair can't be above, where its members were true in so many of the failing runs.
#[tactic(auto, unfolding(crate::specs::Bound::bound_of))]
pub fn bound(left: u32, right: u32, failing: u32) -> Fraction
    requires left_some { 1 ≤ left }
    requires right_some { 1 ≤ right }
    requires left_failing { left ≤ failing }
    requires right_failing { right ≤ failing }
    requires failing { failing ≤ 100000 }
    ensures value { result ≡ bound_of left right failing }
    ensures fraction { IsFraction result }
    ensures above { (t : Tally) → IsTally t → Passes t → t.a ≤ left → t.a ≤ right → IsAtMost (importance_of t failing) result }
{
    let part = u128::from(log_fixed(left.min(right)));
    let whole = u128::from(log_fixed(failing));
    if part == 0 || whole == 0 {
        return Fraction { top: 0, bottom: 1 };
    }
    Fraction {
        top: 2 * part,
        bottom: part + whole,
    }
}
