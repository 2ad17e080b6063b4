ghost use Rattle.std.specs.Prelude.{◌≡◌, ◌≤◌, ◌^◌, ◌*ℤ◌, unsigned_abs, IsTrue, IfOk};
ghost use Rattle.cbi_base.specs.Words.{LiesIn, is_count, two_to, left_shift, right_shift};

use crate::range::{lies_in, wrap};
use cbi_base::{Kind, Trap};

fn is_count(count: i64) -> bool
    ensures { result ≡ is_count count }
{
    0 <= count && count <= 31
}

/// 2 to a count of bits.
fn two_to(count: i64) -> i64
    requires { IsTrue (is_count count) }
    ensures value { result ≡ two_to count }
    ensures bound { unsigned_abs result ≤ 2 ^ 31 }
{
    1 << count
}

/// The exact number times 2 to a count of bits.
fn scaled(kind: Kind, left: i64, count: i64) -> i64
    requires left { LiesIn kind left }
    requires count { IsTrue (is_count count) }
    ensures { result ≡ left *ℤ two_to count }
{
    left * two_to(count)
}

/// The number times 2 to the count. An `unsigned` result wraps; a negative `int` and an `int` result out of range are trap
/// Shift.
pub fn shift_left(kind: Kind, left: i64, count: i64) -> Result<i64, Trap>
    requires left { LiesIn kind left }
    ensures value { result ≡ left_shift kind left count }
    ensures in_range { IfOk result (LiesIn kind) }
{
    if !is_count(count) {
        return Err(Trap::Shift);
    }
    let exact = scaled(kind, left, count);
    match kind {
        Kind::Unsigned => Ok(wrap(kind, exact)),
        Kind::Char | Kind::Int if left >= 0 && lies_in(kind, exact) => Ok(exact),
        Kind::Char | Kind::Int => Err(Trap::Shift),
    }
}

/// The number over 2 to the count, rounded down.
pub fn shift_right(kind: Kind, left: i64, count: i64) -> Result<i64, Trap>
    requires left { LiesIn kind left }
    ensures value { result ≡ right_shift left count }
    ensures in_range { IfOk result (LiesIn kind) }
{
    if !is_count(count) {
        return Err(Trap::Shift);
    }
    Ok(left >> count)
}
