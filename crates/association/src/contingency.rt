ghost use Rattle.std.specs.Prelude.{◌≡◌, ◌*◌, ◌^◌, ◌<◌, ◌≤◌};
ghost use Rattle.fractions.specs.Fraction.{fraction_cmp, millionths_of};
ghost use Rattle.association.specs.Strength.{AreOfOneList, IsContingency, excess_of, share_of, truth_margin_of, strength_of};

use fractions::Fraction;
use std::cmp::Ordering;

/// The 2x2 table of a predicate: it is true in `a` of so many failing and in `b` of so many successful runs.
#[derive(Clone, Copy, Debug, PartialEq, Eq)]
pub struct Contingency {
    pub a: u32,
    pub b: u32,
    pub failing: u32,
    pub successful: u32,
}

// The determinant of the table, or 0 where that isn't positive.
fn excess(table: Contingency) -> u128
    requires { IsContingency table }
    ensures value { result ≡ excess_of table }
    ensures bounded { result ≤ 10 ^ 10 }
{
    let gain = u128::from(table.a) * u128::from(table.successful);
    let loss = u128::from(table.b) * u128::from(table.failing);
    gain.saturating_sub(loss)
}

// In how many runs the predicate is true, times in how many it isn't.
fn spread(table: Contingency) -> u128
    requires { IsContingency table }
    ensures value { result ≡ truth_margin_of table }
    ensures bounded { result ≤ 10 ^ 10 }
{
    let held = table.a + table.b;
    let runs = table.failing + table.successful;
    u128::from(held) * u128::from(runs - held)
}

// The square of the determinant.
fn square(table: Contingency) -> u128
    requires { IsContingency table }
    ensures value { result ≡ excess_of table * excess_of table }
    ensures bounded { result ≤ 10 ^ 20 }
{
    let excess = excess(table);
    excess * excess
}

// The strength without the two totals that all tables of one list share.
fn share(table: Contingency) -> Fraction
    requires { IsContingency table }
    ensures value { result ≡ share_of table }
    ensures top { result.top ≤ 10 ^ 20 }
    ensures bottom { result.bottom ≤ 10 ^ 10 }
{
    let bottom = spread(table);
    if bottom == 0 {
        return Fraction { top: 0, bottom: 1 };
    }
    let top = square(table);
    Fraction { top, bottom }
}

/// The order of the strengths of two predicates over the same runs.
pub fn compare_strengths(left: Contingency, right: Contingency) -> Ordering
    requires left { IsContingency left }
    requires right { IsContingency right }
    requires one_list { AreOfOneList left right }
    ensures { result ≡ fraction_cmp (strength_of left) (strength_of right) }
{
    let left = share(left);
    let right = share(right);
    (left.top * right.bottom).cmp(&(right.top * left.bottom))
}

// The strength of a predicate.
fn strength(table: Contingency) -> Fraction
    requires { IsContingency table }
    ensures value { result ≡ strength_of table }
    ensures positive { 0 < result.bottom }
    ensures top { result.top ≤ 10 ^ 20 }
{
    let totals = u128::from(table.failing) * u128::from(table.successful);
    let bottom = totals * spread(table);
    if bottom == 0 {
        return Fraction { top: 0, bottom: 1 };
    }
    let top = square(table);
    Fraction { top, bottom }
}

// A fraction of at most 1 in millionths, rounded down.
fn millionths(value: Fraction) -> u64
    requires positive { 0 < value.bottom }
    requires top { value.top ≤ 10 ^ 20 }
    requires at_most_one { value.top ≤ value.bottom }
    ensures value { result ≡ millionths_of value }
    ensures bounded { result ≤ 1000000 }
{
    (value.top * 1_000_000 / value.bottom) as u64
}

/// The strength of a predicate in millionths, rounded down.
pub fn strength_in_millionths(table: Contingency) -> u64
    requires { IsContingency table }
    ensures value { result ≡ millionths_of (strength_of table) }
    ensures bounded { result ≤ 1000000 }
{
    millionths(strength(table))
}
