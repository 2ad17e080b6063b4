ghost use Rattle.std.specs.Prelude.{◌≡◌, ℤ, pos, ◌≤ℤ◌, ◌^◌, IfOk, Ok, Err};
ghost use Rattle.cbi_base.specs.Words.{least_of, greatest_of, size_of, lies_in, wrapped_value, LiesIn, fitted_value, truth_number};

use cbi_base::{Kind, Trap};

/// The least value of a kind.
fn least(kind: Kind) -> i64
    ensures { result ≡ least_of kind }
{
    match kind {
        Kind::Char => i8::MIN as i64,
        Kind::Int => i32::MIN as i64,
        Kind::Unsigned => 0,
    }
}

/// The greatest value of a kind.
fn greatest(kind: Kind) -> i64
    ensures { result ≡ greatest_of kind }
{
    match kind {
        Kind::Char => i8::MAX as i64,
        Kind::Int => i32::MAX as i64,
        Kind::Unsigned => u32::MAX as i64,
    }
}

/// How many values a kind has.
fn size(kind: Kind) -> i64
    ensures { result ≡ pos (size_of kind) }
{
    match kind {
        Kind::Char => 1 << 8,
        Kind::Int | Kind::Unsigned => 1 << 32,
    }
}

/// Whether the value lies in the kind's range.
pub fn lies_in(kind: Kind, value: i64) -> bool
    ensures { result ≡ lies_in kind value }
{
    least(kind) <= value && value <= greatest(kind)
}

/// The value modulo the kind's size, taken into its range (C99 6.3.1.3).
pub fn wrap(kind: Kind, value: i64) -> i64
    ensures value { result ≡ wrapped_value kind value }
    ensures in_range { LiesIn kind result }
{
    let rest = value.rem_euclid(size(kind));
    if rest > greatest(kind) {
        rest - size(kind)
    } else {
        rest
    }
}

/// An exact result in a kind: an `unsigned` one wraps, an `int` one out of range is trap Overflow.
pub fn fit(kind: Kind, exact: i64) -> Result<i64, Trap>
    ensures value { result ≡ fitted_value kind exact }
    ensures in_range { IfOk result (LiesIn kind) }
{
    match kind {
        Kind::Unsigned => Ok(wrap(kind, exact)),
        Kind::Char | Kind::Int if lies_in(kind, exact) => Ok(exact),
        Kind::Char | Kind::Int => Err(Trap::Overflow),
    }
}

/// What a comparison and `!` give: 1 where it holds, else 0.
pub fn flag(holds: bool) -> i64
    ensures value { result ≡ truth_number holds }
    ensures in_range { LiesIn Kind.Int result }
{
    if holds { 1 } else { 0 }
}
