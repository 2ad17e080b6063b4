ghost use Rattle.std.specs.Prelude.{◌≡◌, IfOk};
ghost use Rattle.c_types_rules.specs.Conversions.{is_void, is_unsigned, is_arithmetic, is_pointer, is_void_pointer, is_array, is_struct, is_scalar};
ghost use Rattle.c_types_rules.specs.Conversions.{decayed_type, promoted_type, common_type, value_of, place_of, constant_of, null_of, string_of};
ghost use Rattle.c_types_rules.specs.Conversions.{parenthesized_operand};
ghost use Rattle.c_types_rules.specs.Operators.{is_scalar_value};
ghost use Rattle.c_types_rules.specs.Plain.{plain_type};

use crate::ctype::{CType, Type};
use crate::operand::{Looked, Operand};
use cbi_base::{Kind, Memory};
use std::alloc::Global;

/// Whether it is `void`.
pub fn is_void(ctype: &CType) -> bool
    ensures { result ≡ is_void (plain_type ctype.now) }
{
    match ctype {
        CType::Void => true,
        CType::Char | CType::Int | CType::Unsigned | CType::Pointer { .. } => false,
        CType::Array { .. } | CType::Struct { .. } => false,
    }
}

/// Whether it is `unsigned`.
fn is_unsigned(ctype: &CType) -> bool
    ensures { result ≡ is_unsigned (plain_type ctype.now) }
{
    match ctype {
        CType::Unsigned => true,
        CType::Void | CType::Char | CType::Int | CType::Pointer { .. } => false,
        CType::Array { .. } | CType::Struct { .. } => false,
    }
}

/// Whether it is an arithmetic type.
pub fn is_arithmetic(ctype: &CType) -> bool
    ensures value { result ≡ is_arithmetic (plain_type ctype.now) }
    ensures decayed { result ≡ is_arithmetic (decayed_type (plain_type ctype.now)) }
{
    match ctype {
        CType::Char | CType::Int | CType::Unsigned => true,
        CType::Void | CType::Pointer { .. } => false,
        CType::Array { .. } | CType::Struct { .. } => false,
    }
}

/// Whether it is a pointer.
pub fn is_pointer(ctype: &CType) -> bool
    ensures { result ≡ is_pointer (plain_type ctype.now) }
{
    match ctype {
        CType::Pointer { .. } => true,
        CType::Void | CType::Char | CType::Int | CType::Unsigned => false,
        CType::Array { .. } | CType::Struct { .. } => false,
    }
}

/// Whether it is a `void *`.
pub fn is_void_pointer(ctype: &CType) -> bool
    ensures { result ≡ is_void_pointer (plain_type ctype.now) }
{
    match ctype {
        CType::Pointer { to } => is_void(to),
        CType::Void | CType::Char | CType::Int | CType::Unsigned => false,
        CType::Array { .. } | CType::Struct { .. } => false,
    }
}

/// Whether it is an array.
pub fn is_array(ctype: &CType) -> bool
    ensures { result ≡ is_array (plain_type ctype.now) }
{
    match ctype {
        CType::Array { .. } => true,
        CType::Void | CType::Char | CType::Int | CType::Unsigned => false,
        CType::Pointer { .. } | CType::Struct { .. } => false,
    }
}

/// Whether it is a struct.
pub fn is_struct(ctype: &CType) -> bool
    ensures { result ≡ is_struct (plain_type ctype.now) }
{
    match ctype {
        CType::Struct { .. } => true,
        CType::Void | CType::Char | CType::Int | CType::Unsigned => false,
        CType::Pointer { .. } | CType::Array { .. } => false,
    }
}

/// Whether it is a scalar type.
pub fn is_scalar(ctype: &CType) -> bool
    ensures { result ≡ is_scalar (plain_type ctype.now) }
{
    match ctype {
        CType::Char | CType::Int | CType::Unsigned | CType::Pointer { .. } => true,
        CType::Void | CType::Array { .. } | CType::Struct { .. } => false,
    }
}

/// Whether the operand's value, an array as a pointer, is a scalar.
pub fn is_scalar_value(x: &Operand) -> bool
    ensures { result ≡ is_scalar_value x.now }
{
    match x.ctype.shape() {
        CType::Char | CType::Int | CType::Unsigned => true,
        CType::Pointer { .. } | CType::Array { .. } => true,
        CType::Void | CType::Struct { .. } => false,
    }
}

/// An array becomes a pointer to its first element.
pub fn decayed(ctype: Type) -> CType
    ensures { plain_type result ≡ decayed_type ctype }
{
    match ctype.into_shape() {
        CType::Void => CType::Void,
        CType::Char => CType::Char,
        CType::Int => CType::Int,
        CType::Unsigned => CType::Unsigned,
        CType::Pointer { to } => CType::Pointer { to },
        CType::Array { of, .. } => CType::Pointer { to: of },
        CType::Struct { tag } => CType::Struct { tag },
    }
}

/// `char` is promoted to `int`.
pub fn promoted(shape: CType) -> CType
    ensures { plain_type result ≡ promoted_type (plain_type shape) }
{
    match shape {
        CType::Void => CType::Void,
        CType::Char | CType::Int => CType::Int,
        CType::Unsigned => CType::Unsigned,
        CType::Pointer { to } => CType::Pointer { to },
        CType::Array { of, length } => CType::Array { of, length },
        CType::Struct { tag } => CType::Struct { tag },
    }
}

/// The common type of two arithmetic types.
pub fn common(left: &CType, right: &CType) -> CType
    ensures { plain_type result ≡ common_type (plain_type left.now) (plain_type right.now) }
{
    if is_unsigned(left) || is_unsigned(right) {
        CType::Unsigned
    } else {
        CType::Int
    }
}

/// A value of the type.
pub fn value_of(shape: CType) -> Operand
    ensures { result ≡ value_of (plain_type shape) }
{
    Operand {
        ctype: Type::new(shape),
        place: false,
        null: false,
    }
}

/// A place of the type.
pub fn place_of(shape: CType) -> Operand
    ensures { result ≡ place_of (plain_type shape) }
{
    Operand {
        ctype: Type::new(shape),
        place: true,
        null: false,
    }
}

/// A constant, which is a null constant where it is 0.
pub fn constant_of(kind: Kind, value: i64) -> Operand
    ensures { result ≡ constant_of kind value }
{
    let shape = match kind {
        Kind::Char => CType::Char,
        Kind::Int => CType::Int,
        Kind::Unsigned => CType::Unsigned,
    };
    Operand {
        ctype: Type::new(shape),
        place: false,
        null: value == 0,
    }
}

/// The null constant `NULL`, a `void *`.
pub fn null_of(alloc: Global) -> Result<Operand, Memory>
    ensures { IfOk result (λ x. x ≡ null_of) }
{
    let to = Box::new(alloc, CType::Void)?;
    Ok(Operand {
        ctype: Type::new(CType::Pointer { to }),
        place: false,
        null: true,
    })
}

/// A string of so many bytes, its closing zero among them.
pub fn string_of(alloc: Global, size: u32) -> Result<Operand, Memory>
    ensures { IfOk result (λ x. x ≡ string_of size) }
{
    let of = Box::new(alloc, CType::Char)?;
    Ok(value_of(CType::Array { of, length: size }))
}

/// An operand in parentheses.
pub fn enclosed(x: Operand) -> Operand
    ensures { result ≡ parenthesized_operand x }
{
    let mut x = x;
    x.null = false;
    x
}
