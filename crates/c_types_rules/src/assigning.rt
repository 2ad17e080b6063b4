ghost use Rattle.std.specs.Prelude.{◌≡◌};
ghost use Rattle.c_types_rules.specs.Assigning.{pointers_meet, is_assignable, is_left_side, typed_simple_assignment, fits_parameters};
ghost use Rattle.c_types_rules.specs.Conversions.{decayed_type};
ghost use Rattle.c_types_rules.specs.Plain.{plain_type};
ghost use Rattle.c_types_rules.specs.TypeTree.{Pointer};

use crate::conversions::{
    decayed, is_arithmetic, is_array, is_pointer, is_void, is_void_pointer, value_of,
};
use crate::ctype::{CType, Type, same_type};
use crate::fault::FaultKind;
use crate::operand::{Looked, Operand};

/// Whether two pointers have one type, or one of them is a `void *`.
pub fn pointers_meet(left: &CType, right: &CType) -> bool
    ensures { result ≡ pointers_meet (plain_type left.now) (plain_type right.now) }
{
    let both = is_pointer(left) && is_pointer(right);
    both && (same_type(left, right) || is_void_pointer(left) || is_void_pointer(right))
}

/// Whether a pointer to the first type meets the value of an object of the second type.
fn meets_value(to: &CType, from: &CType) -> bool
    ensures { result ≡ pointers_meet (Pointer (plain_type to.now)) (decayed_type (plain_type from.now)) }
{
    match from {
        CType::Pointer { to: from } => same_type(to, from) || is_void(to) || is_void(from),
        CType::Array { of, .. } => same_type(to, of) || is_void(to) || is_void(of),
        CType::Void | CType::Char | CType::Int => false,
        CType::Unsigned | CType::Struct { .. } => false,
    }
}

/// Whether a value may be assigned to a place of the type, passed or returned as one, or initialise one.
pub fn assignable(target: &CType, x: &Operand) -> bool
    ensures { result ≡ is_assignable (plain_type target.now) x.now }
{
    if is_arithmetic(target) && is_arithmetic(x.ctype.shape()) {
        return true;
    }
    match target {
        CType::Pointer { to } => x.null || meets_value(to, x.ctype.shape()),
        CType::Void | CType::Char | CType::Int | CType::Unsigned => false,
        CType::Array { .. } | CType::Struct { .. } => false,
    }
}

/// Whether it is a place that is no array.
pub fn is_left_side(x: &Operand) -> bool
    ensures { result ≡ is_left_side x.now }
{
    x.place && !is_array(x.ctype.shape())
}

/// An assignment of a value, by its left side.
pub fn assigned(target: Operand, x: &Operand) -> Looked
    ensures { result ≡ typed_simple_assignment target x.now }
{
    let left_side = is_left_side(&target);
    let shape = decayed(target.ctype);
    if !assignable(&shape, x) {
        return Err(FaultKind::Operands);
    }
    if !left_side {
        return Err(FaultKind::NoPlace);
    }
    Ok(value_of(shape))
}

/// Whether the arguments fit the parameters, one for each.
pub fn fits_parameters(params: &[Type], arguments: &[Operand]) -> bool
    ensures { result ≡ fits_parameters params.now arguments.now }
{
    let mut params = params;
    let mut arguments = arguments;
    while let [first, more_params @ ..] = params {
        let [x, more_arguments @ ..] = arguments else {
            return false;
        };
        if !assignable(first.shape(), x) {
            return false;
        }
        params = more_params;
        arguments = more_arguments;
    }
    arguments.is_empty()
}
