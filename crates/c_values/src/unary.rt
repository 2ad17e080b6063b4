ghost use Rattle.std.specs.Prelude.{◌≡◌, neg_ℤ, IfOk};
ghost use Rattle.cbi_base.specs.Words.{LiesIn, fitted_value, complement, IsInRange, applied_to_one, logical_negation, as_promoted, truth_of};

use crate::bits::complement;
use crate::range::{fit, flag};
use crate::scalars::truth;
use cbi_base::{Kind, Scalar, Trap, Unary};

/// The opposite truth as an `int`, 0 or 1.
fn negate_truth(value: Scalar) -> Result<Scalar, Trap>
    ensures value { result ≡ logical_negation (truth_of value) }
    ensures in_range { IfOk result IsInRange }
{
    let holds = truth(value)?;
    Ok(Scalar::Number {
        kind: Kind::Int,
        value: flag(!holds),
    })
}

/// The number with its sign turned round. The least `int` is trap Overflow, a `char` trap Internal.
fn negate(kind: Kind, value: i64) -> Result<Scalar, Trap>
    requires { LiesIn kind value }
    ensures value { result ≡ as_promoted kind (fitted_value kind (neg_ℤ value)) }
    ensures in_range { IfOk result IsInRange }
{
    if kind == Kind::Char {
        return Err(Trap::Internal);
    }
    Ok(Scalar::Number {
        kind,
        value: fit(kind, -value)?,
    })
}

/// The number with each of its bits turned round. A `char` is trap Internal.
fn invert(kind: Kind, value: i64) -> Result<Scalar, Trap>
    ensures value { result ≡ as_promoted kind (Ok (complement kind value)) }
    ensures in_range { IfOk result IsInRange }
{
    if kind == Kind::Char {
        return Err(Trap::Internal);
    }
    Ok(Scalar::Number {
        kind,
        value: complement(kind, value),
    })
}

/// `-` and `~` of an `int` or `unsigned` number, and `!` of any value (C99 6.5.3.3). Undefined is trap Undefined, any other
/// value that the operation doesn't take trap Internal.
#[tactic(auto, unfolding(cbi_base::specs::Scalars::applied_to_one))]
pub fn apply_unary(op: Unary, value: Scalar) -> Result<Scalar, Trap>
    requires { IsInRange value }
    ensures value { result ≡ applied_to_one op value }
    ensures in_range { IfOk result IsInRange }
{
    match (op, value) {
        (Unary::Not, _) => negate_truth(value),
        (_, Scalar::Undefined) => Err(Trap::Undefined),
        (Unary::Neg, Scalar::Number { kind, value }) => negate(kind, value),
        (Unary::Com, Scalar::Number { kind, value }) => invert(kind, value),
        (_, Scalar::Place { .. } | Scalar::Null) => Err(Trap::Internal),
    }
}
