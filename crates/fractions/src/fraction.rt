ghost use Rattle.std.specs.Prelude.{◌≡◌, ◌≤◌};
ghost use Rattle.fractions.specs.Fraction.{IsAtMost, IsFraction, fraction_cmp, millionths_of};

use std::cmp::Ordering;

/// A number from 0 up: the top over the bottom. `==` compares the parts, and [`compare`] the values.
#[derive(Clone, Copy, Debug, PartialEq, Eq)]
pub struct Fraction {
    pub top: u128,
    pub bottom: u128,
}

/// The order of the values of two fractions.
pub fn compare(left: Fraction, right: Fraction) -> Ordering
    requires left_bounds { IsFraction left }
    requires right_bounds { IsFraction right }
    ensures { result ≡ fraction_cmp left right }
{
    (left.top * right.bottom).cmp(&(right.top * left.bottom))
}

/// A fraction of at most 1 in millionths, rounded down.
pub fn millionths(value: Fraction) -> u64
    requires bounds { IsFraction value }
    requires at_most_one { value.top ≤ value.bottom }
    ensures { result ≡ millionths_of value }
{
    (value.top * 1_000_000 / value.bottom) as u64
}

/// A law: the order of values is transitive.
pub fn order_is_transitive(left: Fraction, middle: Fraction, right: Fraction)
    requires left_bounds { IsFraction left }
    requires middle_bounds { IsFraction middle }
    requires right_bounds { IsFraction right }
    ensures { IsAtMost left middle → IsAtMost middle right → IsAtMost left right }
{}
