ghost use Rattle.std.specs.Prelude.{◌≡◌, IfOk, IsFalse};
ghost use Rattle.c_values.specs.Shifts.{is_shift};
ghost use Rattle.cbi_base.specs.Words.{LiesIn, binary_value, kind_given, IsInRange, operator_applied, has_operand_kinds};

use crate::arithmetic::{add, divide, multiply, remainder, subtract};
use crate::bits::{and, or, xor};
use crate::range::flag;
use crate::shifts::{shift_left, shift_right};
use cbi_base::{Binary, Kind, Scalar, Trap};

/// The kinds that an operation takes: two of one kind `int` or `unsigned`, and for a shift any of these two each.
fn takes(op: Binary, left: Kind, right: Kind) -> bool
    ensures { result ≡ has_operand_kinds op left right }
{
    match (op, left, right) {
        (_, Kind::Int, Kind::Int) | (_, Kind::Unsigned, Kind::Unsigned) => true,
        (Binary::Shl | Binary::Shr, Kind::Int, Kind::Unsigned) => true,
        (Binary::Shl | Binary::Shr, Kind::Unsigned, Kind::Int) => true,
        _ => false,
    }
}

/// The kind of an operation's answer: `int` for a comparison, else the left operand's.
fn kind_given(op: Binary, kind: Kind) -> Kind
    ensures { result ≡ kind_given op kind }
{
    match op {
        Binary::Lt | Binary::Le | Binary::Gt | Binary::Ge | Binary::Eq | Binary::Ne => Kind::Int,
        _ => kind,
    }
}

/// An operation on two numbers of one kind; a shift's count may be any number.
fn calculate(op: Binary, kind: Kind, left: i64, right: i64) -> Result<i64, Trap>
    requires left { LiesIn kind left }
    requires right { IsFalse (is_shift op) → LiesIn kind right }
    ensures value { result ≡ binary_value op kind left right }
    ensures in_range { IfOk result (LiesIn (kind_given op kind)) }
{
    match op {
        Binary::Add => add(kind, left, right),
        Binary::Sub => subtract(kind, left, right),
        Binary::Mul => multiply(kind, left, right),
        Binary::Div => divide(kind, left, right),
        Binary::Rem => remainder(kind, left, right),
        Binary::Shl => shift_left(kind, left, right),
        Binary::Shr => shift_right(kind, left, right),
        Binary::And => Ok(and(kind, left, right)),
        Binary::Or => Ok(or(kind, left, right)),
        Binary::Xor => Ok(xor(kind, left, right)),
        Binary::Lt => Ok(flag(left < right)),
        Binary::Le => Ok(flag(left <= right)),
        Binary::Gt => Ok(flag(left > right)),
        Binary::Ge => Ok(flag(left >= right)),
        Binary::Eq => Ok(flag(left == right)),
        Binary::Ne => Ok(flag(left != right)),
    }
}

/// An operation on two numbers, where it takes their kinds.
#[tactic(auto, unfolding(cbi_base::specs::Scalars::operator_applied))]
fn apply_to_numbers(
    op: Binary,
    kind: Kind,
    left: i64,
    other: Kind,
    right: i64,
) -> Result<Scalar, Trap>
    requires left { LiesIn kind left }
    requires right { LiesIn other right }
    ensures value { result ≡ operator_applied op (Scalar.Number kind left) (Scalar.Number other right) }
    ensures in_range { IfOk result IsInRange }
{
    if !takes(op, kind, other) {
        return Err(Trap::Internal);
    }
    let value = calculate(op, kind, left, right)?;
    Ok(Scalar::Number {
        kind: kind_given(op, kind),
        value,
    })
}

/// An operation on two values (C99 6.5.5 to 6.5.14). An undefined operand is trap Undefined, then any other value or kind
/// that the operation doesn't take trap Internal.
#[tactic(auto, unfolding(cbi_base::specs::Scalars::operator_applied))]
pub fn apply_binary(op: Binary, left: Scalar, right: Scalar) -> Result<Scalar, Trap>
    requires left { IsInRange left }
    requires right { IsInRange right }
    ensures value { result ≡ operator_applied op left right }
    ensures in_range { IfOk result IsInRange }
{
    match (left, right) {
        (Scalar::Undefined, _) | (_, Scalar::Undefined) => Err(Trap::Undefined),
        (
            Scalar::Number { kind, value },
            Scalar::Number {
                kind: other,
                value: second,
            },
        ) => { apply_to_numbers(op, kind, value, other, second) }
        _ => Err(Trap::Internal),
    }
}
