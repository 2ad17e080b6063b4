ghost use Rattle.std.specs.Prelude.{◌≡◌, ◌-◌, ◌*◌, ◌^◌, ◌<◌, ◌≤◌, ◌↔◌, IsTrue};
ghost use Rattle.fractions.specs.Fraction.{IsFraction};
ghost use Rattle.fractions.specs.Tally.{IsTally, Passes, importance_of, spread_of, surplus_of};

use crate::fraction::Fraction;
use crate::logarithm::log_fixed;

/// In how many runs a predicate was true (`a` failing, `b` successful) and observed (`c` failing, `d` successful).
#[derive(Clone, Copy, Debug, PartialEq, Eq)]
pub struct Tally {
    pub a: u32,
    pub b: u32,
    pub c: u32,
    pub d: u32,
}

/// The variance of `part / whole`, times the cubes of both wholes.
#[tactic(auto, using(crate::proofs::Bounds::bounds))]
fn variance_part(part: u32, whole: u32, other: u32) -> u128
    requires within { part ≤ whole }
    requires whole_bound { whole ≤ 100000 }
    requires other_bound { other ≤ 100000 }
    ensures value { result ≡ part * (whole - part) * other ^ 3 }
    ensures bounded { result ≤ 10 ^ 25 }
{
    u128::from(part) * u128::from(whole - part) * u128::from(other).pow(3)
}

/// The top of Increase, or 0 where that isn't positive.
fn surplus(tally: Tally) -> u128
    requires bounds { IsTally tally }
    ensures value { result ≡ surplus_of tally }
    ensures bounded { result ≤ 10 ^ 10 }
{
    let gain = u128::from(tally.a) * u128::from(tally.d);
    let loss = u128::from(tally.b) * u128::from(tally.c);
    gain.saturating_sub(loss)
}

/// The bottom of Increase.
fn spread(tally: Tally) -> u128
    requires bounds { IsTally tally }
    ensures value { result ≡ spread_of tally }
    ensures bounded { result ≤ 10 ^ 10 }
{
    u128::from(tally.a + tally.b) * u128::from(tally.c + tally.d)
}

/// Whether the lower end of a 95 % interval for Increase is above zero (PLDI 2005 section 3.2).
#[tactic(auto, using(crate::proofs::Bounds::bounds))]
pub fn confident(tally: Tally) -> bool
    requires { IsTally tally }
    ensures { IsTrue result ↔ Passes tally }
{
    let surplus = surplus(tally);
    let square = surplus.pow(2) * u128::from(tally.c) * u128::from(tally.d);
    let failing = variance_part(tally.a, tally.c, tally.d);
    let successful = variance_part(tally.b, tally.d, tally.c);
    // 38416 / 10000 is the square of 1.96.
    surplus > 0 && square * 10000 > 38416 * (failing + successful)
}

/// The score of a passing predicate where `failing` failing runs are left (PLDI 2005 section 3.3).
#[tactic(auto, unfolding(crate::specs::Tally::importance_of))]
pub fn importance(tally: Tally, failing: u32) -> Fraction
    requires bounds { IsTally tally }
    requires passes { Passes tally }
    requires observed { tally.c ≤ failing }
    requires failing_bound { failing ≤ 100000 }
    ensures value { result ≡ importance_of tally failing }
    ensures bounds { IsFraction result }
    ensures at_most_one { result.top ≤ result.bottom }
{
    let part = u128::from(log_fixed(tally.a));
    let whole = u128::from(log_fixed(failing));
    if part == 0 || whole == 0 {
        return Fraction { top: 0, bottom: 1 };
    }
    let surplus = surplus(tally);
    Fraction {
        top: 2 * surplus * part,
        bottom: surplus * whole + part * spread(tally),
    }
}
