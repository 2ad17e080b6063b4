ghost use Rattle.std.specs.Prelude.{◌≡◌, ◌+ℤ◌, ◌-ℤ◌, ◌*ℤ◌, IfOk};
ghost use Rattle.cbi_base.specs.Words.{LiesIn, wrapped_value, fitted_value, quotient, remainder};

use crate::range::{fit, lies_in};
use cbi_base::{Kind, Trap};

/// The sum in a kind.
#[tactic(auto, using(crate::proofs::Ranges::size_below))]
pub fn add(kind: Kind, left: i64, right: i64) -> Result<i64, Trap>
    requires left { LiesIn kind left }
    requires right { LiesIn kind right }
    ensures value { result ≡ fitted_value kind (left +ℤ right) }
    ensures in_range { IfOk result (LiesIn kind) }
{
    fit(kind, left + right)
}

/// The difference in a kind.
#[tactic(auto, using(crate::proofs::Ranges::size_below))]
pub fn subtract(kind: Kind, left: i64, right: i64) -> Result<i64, Trap>
    requires left { LiesIn kind left }
    requires right { LiesIn kind right }
    ensures value { result ≡ fitted_value kind (left -ℤ right) }
    ensures in_range { IfOk result (LiesIn kind) }
{
    fit(kind, left - right)
}

/// The product of two `unsigned` numbers, modulo 2^32: the exact one can be too great for an `i64`.
fn unsigned_product(left: i64, right: i64) -> i64
    requires left { LiesIn Kind.Unsigned left }
    requires right { LiesIn Kind.Unsigned right }
    ensures value { result ≡ wrapped_value Kind.Unsigned (left *ℤ right) }
    ensures in_range { LiesIn Kind.Unsigned result }
{
    (left as u64 * right as u64 % (1 << 32)) as i64
}

/// The product in a kind.
pub fn multiply(kind: Kind, left: i64, right: i64) -> Result<i64, Trap>
    requires left { LiesIn kind left }
    requires right { LiesIn kind right }
    ensures value { result ≡ fitted_value kind (left *ℤ right) }
    ensures in_range { IfOk result (LiesIn kind) }
{
    match kind {
        Kind::Unsigned => Ok(unsigned_product(left, right)),
        Kind::Char | Kind::Int => fit(kind, left * right),
    }
}

/// The quotient, truncated towards zero. A zero divisor is trap Divide, the least `int` over -1 trap Overflow.
pub fn divide(kind: Kind, left: i64, right: i64) -> Result<i64, Trap>
    requires left { LiesIn kind left }
    ensures value { result ≡ quotient kind left right }
    ensures in_range { IfOk result (LiesIn kind) }
{
    if right == 0 {
        return Err(Trap::Divide);
    }
    fit(kind, left / right)
}

/// The remainder, with the dividend's sign. It traps where the quotient does.
pub fn remainder(kind: Kind, left: i64, right: i64) -> Result<i64, Trap>
    requires left { LiesIn kind left }
    ensures value { result ≡ remainder kind left right }
    ensures in_range { IfOk result (LiesIn kind) }
{
    if right == 0 {
        return Err(Trap::Divide);
    }
    if !lies_in(kind, left / right) {
        return Err(Trap::Overflow);
    }
    Ok(left % right)
}
