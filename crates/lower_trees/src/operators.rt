ghost use Rattle.std.specs.Prelude.{◌≡◌};
ghost use Rattle.c_meaning.specs.Trees.{assignment_of_sign, has_value, joint_of_sign, one_kind, operand_type, step_of};
ghost use Rattle.lower_trees.specs.Operators.{assignment_of, joint_of};

use c_meaning::ValueType;
use c_syntax::Sign;
use c_types_expressions::{binary_of, compound_of};
use cbi_base::{Binary, Kind};

/// What an assignment operator does: it stores, or it calculates before.
#[derive(Clone, Copy)]
pub enum Assignment {
    Plain,
    By { op: Binary },
}

/// What an operator of a chain does: it may leave its right side alone, or it calculates with both sides.
#[derive(Clone, Copy)]
pub enum Joint {
    Both,
    Either,
    Computes { op: Binary },
    Unjoined,
}

/// What the assignment operator does.
pub fn assignment_by(sign: Sign) -> Assignment
    ensures { assignment_of result ≡ assignment_of_sign sign }
{
    match compound_of(sign) {
        None => Assignment::Plain,
        Some(op) => Assignment::By { op },
    }
}

/// What the operator of a chain does.
pub fn joint_by(sign: Sign) -> Joint
    ensures { joint_of result ≡ joint_of_sign sign }
{
    match sign {
        Sign::AndAnd => Joint::Both,
        Sign::OrOr => Joint::Either,
        _ => match binary_of(sign) {
            None => Joint::Unjoined,
            Some(op) => Joint::Computes { op },
        },
    }
}

/// The type of an operand that is a null pointer, or its own one.
pub fn operand_type(is_null: bool, own: Option<ValueType>) -> Option<ValueType>
    ensures { result ≡ operand_type is_null own }
{
    if is_null {
        return Some(ValueType::Pointer { size: 0 });
    }
    own
}

/// The kind of the 1 that `++` and `--` add or subtract.
pub fn one_kind(of: Option<ValueType>) -> Kind
    ensures { result ≡ one_kind of }
{
    match of {
        Some(
            ValueType::Number {
                kind: Kind::Unsigned,
            },
        ) => Kind::Unsigned,
        _ => Kind::Int,
    }
}

/// The operator of `++`, or else of `--`.
pub fn step_of(up: bool) -> Binary
    ensures { result ≡ step_of up }
{
    if up { Binary::Add } else { Binary::Sub }
}

/// Whether a function with this result gives a value.
pub fn has_value(result_type: ValueType) -> bool
    ensures { result ≡ has_value result_type }
{
    !matches!(result_type, ValueType::Void)
}
