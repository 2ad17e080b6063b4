ghost use Rattle.std.specs.Prelude.{◌≡◌, ◌&&◌, ◌||◌, IfOk};
ghost use Rattle.c_types_rules.specs.Assigning.{pointers_meet};
ghost use Rattle.c_types_rules.specs.Conversions.{is_pointer, is_arithmetic};
ghost use Rattle.c_types_rules.specs.Operators.{value_if_operands_fit, both_arithmetic, is_movable, typed_sum, typed_difference, typed_relation};
ghost use Rattle.c_types_rules.specs.Operators.{typed_equality, typed_binary_operation, joined_truths, typed_unary_arithmetic};
ghost use Rattle.c_types_rules.specs.Operators.{typed_unary_operation, typed_increment, typed_compound_assignment, typed_sizeof, cast_to};
ghost use Rattle.c_types_rules.specs.Plain.{plain_type};

use crate::assigning::{assignable, assigned, is_left_side, pointers_meet};
use crate::conversions::{
    common, decayed, is_arithmetic, is_pointer, is_scalar_value, is_void, promoted, value_of,
};
use crate::ctype::{CType, Type, same_type};
use crate::fault::FaultKind;
use crate::layout::{StructType, is_complete};
use crate::operand::{Looked, Operand};
use cbi_base::{Binary, Memory, Unary};
use std::alloc::Global;

/// A value of the type where the operands fit.
pub fn gives(fits: bool, shape: CType) -> Looked
    ensures { result ≡ value_if_operands_fit fits (plain_type shape) }
{
    if fits {
        Ok(value_of(shape))
    } else {
        Err(FaultKind::Operands)
    }
}

/// Whether both types are arithmetic.
pub fn both_arithmetic(left: &CType, right: &CType) -> bool
    ensures { result ≡ both_arithmetic (plain_type left.now) (plain_type right.now) }
{
    is_arithmetic(left) && is_arithmetic(right)
}

/// Whether two values are pointers that meet, or a pointer and a null constant.
pub fn pointers_join(left: &CType, left_null: bool, right: &CType, right_null: bool) -> bool
    ensures { result ≡ (pointers_meet (plain_type left.now) (plain_type right.now) || (is_pointer (plain_type left.now) && right_null)
        || (is_pointer (plain_type right.now) && left_null)) }
{
    pointers_meet(left, right)
        || (is_pointer(left) && right_null)
        || (is_pointer(right) && left_null)
}

/// Whether it is a pointer that can be moved.
fn is_movable(structs: &[StructType], ctype: &CType) -> bool
    ensures { result ≡ is_movable structs.now (plain_type ctype.now) }
{
    match ctype {
        CType::Pointer { to } => is_complete(structs, to),
        CType::Void | CType::Char | CType::Int | CType::Unsigned => false,
        CType::Array { .. } | CType::Struct { .. } => false,
    }
}

/// A sum.
pub fn added(structs: &[StructType], left: CType, right: CType) -> Looked
    ensures { result ≡ typed_sum structs.now (plain_type left) (plain_type right) }
{
    if both_arithmetic(&left, &right) {
        return Ok(value_of(common(&left, &right)));
    }
    if is_arithmetic(&right) {
        let fits = is_movable(structs, &left);
        return gives(fits, left);
    }
    let fits = is_arithmetic(&left) && is_movable(structs, &right);
    gives(fits, right)
}

/// A difference.
fn subtracted(structs: &[StructType], left: CType, right: CType) -> Looked
    ensures { result ≡ typed_difference structs.now (plain_type left) (plain_type right) }
{
    if both_arithmetic(&left, &right) {
        return Ok(value_of(common(&left, &right)));
    }
    if is_arithmetic(&right) {
        let fits = is_movable(structs, &left);
        return gives(fits, left);
    }
    let fits = is_movable(structs, &left) && same_type(&left, &right);
    gives(fits, CType::Int)
}

/// `<` and its kin.
fn ordered(left: &CType, right: &CType) -> Looked
    ensures { result ≡ typed_relation (plain_type left.now) (plain_type right.now) }
{
    let fits = both_arithmetic(left, right) || (is_pointer(left) && same_type(left, right));
    gives(fits, CType::Int)
}

/// `==` and `!=`.
fn equated(x: Operand, y: Operand) -> Looked
    ensures { result ≡ typed_equality x y }
{
    let left = decayed(x.ctype);
    let right = decayed(y.ctype);
    let fits = both_arithmetic(&left, &right) || pointers_join(&left, x.null, &right, y.null);
    gives(fits, CType::Int)
}

/// An operator with its two operands.
pub fn combined(structs: &[StructType], op: Binary, x: Operand, y: Operand) -> Looked
    ensures { result ≡ typed_binary_operation structs.now op x y }
{
    if matches!(op, Binary::Eq | Binary::Ne) {
        return equated(x, y);
    }
    let left = decayed(x.ctype);
    let right = decayed(y.ctype);
    match op {
        Binary::Add => added(structs, left, right),
        Binary::Sub => subtracted(structs, left, right),
        Binary::Lt | Binary::Le | Binary::Gt | Binary::Ge => ordered(&left, &right),
        Binary::Shl | Binary::Shr => gives(both_arithmetic(&left, &right), promoted(left)),
        Binary::Mul
        | Binary::Div
        | Binary::Rem
        | Binary::And
        | Binary::Or
        | Binary::Xor
        | Binary::Eq
        | Binary::Ne => { gives(both_arithmetic(&left, &right), common(&left, &right)) }
    }
}

/// `&&` and `||`.
pub fn joined(x: &Operand, y: &Operand) -> Looked
    ensures { result ≡ joined_truths x.now y.now }
{
    gives(is_scalar_value(x) && is_scalar_value(y), CType::Int)
}

/// Unary `+`, and what `-` and `~` give too.
pub fn signed(x: Operand) -> Looked
    ensures { result ≡ typed_unary_arithmetic x }
{
    let shape = decayed(x.ctype);
    gives(is_arithmetic(&shape), promoted(shape))
}

/// `-`, `~` and `!`.
pub fn turned(op: Unary, x: Operand) -> Looked
    ensures { result ≡ typed_unary_operation op x }
{
    match op {
        Unary::Not => gives(is_scalar_value(&x), CType::Int),
        Unary::Neg | Unary::Com => signed(x),
    }
}

/// `++` and `--`, before and behind their operand.
pub fn stepped(structs: &[StructType], x: Operand) -> Looked
    ensures { result ≡ typed_increment structs.now x }
{
    let left_side = is_left_side(&x);
    let shape = decayed(x.ctype);
    if !is_arithmetic(&shape) && !is_movable(structs, &shape) {
        return Err(FaultKind::Operands);
    }
    if !left_side {
        return Err(FaultKind::NoPlace);
    }
    Ok(value_of(shape))
}

/// A compound assignment with this operator.
pub fn compounded(
    alloc: Global,
    structs: &[StructType],
    op: Binary,
    target: Operand,
    x: Operand,
) -> Result<Looked, Memory>
    ensures { IfOk result (λ r. r ≡ typed_compound_assignment structs.now op target x) }
{
    let old = Operand {
        ctype: target.ctype.try_clone(alloc)?,
        place: target.place,
        null: target.null,
    };
    match combined(structs, op, old, x) {
        Ok(value) => Ok(assigned(target, &value)),
        Err(kind) => Ok(Err(kind)),
    }
}

/// `sizeof`, of an expression or a type of this type.
pub fn measured(structs: &[StructType], ctype: &Type) -> Looked
    ensures { result ≡ typed_sizeof structs.now ctype.now }
{
    gives(is_complete(structs, ctype.shape()), CType::Unsigned)
}

/// A cast to the type.
pub fn cast_to(ctype: Type, x: &Operand) -> Looked
    ensures { result ≡ cast_to ctype x.now }
{
    let fits = is_void(ctype.shape()) || assignable(ctype.shape(), x);
    gives(fits, ctype.into_shape())
}
