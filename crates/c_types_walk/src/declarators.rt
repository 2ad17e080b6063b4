ghost use Rattle.std.specs.Prelude.{◌≡◌, IfOk};
ghost use Rattle.c_types_walk.specs.Declarators.{array_of, bounded_array, declared_type, is_bound, is_open, with_bounds};

use c_syntax::{Bound, Constant, Declarator};
use c_types_expressions::with_stars;
use c_types_rules::{CType, StructType, Type, is_object};
use cbi_base::Memory;
use std::alloc::Global;

/// The most cells of an object.
const MOST_CELLS: i64 = 1_048_576;

/// Whether the constant is a length of an array that fits.
fn is_bound(c: &Constant) -> bool
    ensures { result ≡ is_bound c.now }
{
    1 <= c.value && c.value <= MOST_CELLS
}

/// The array of so many elements; None where the constant is no length.
fn array_of(alloc: Global, c: &Constant, element: Type) -> Result<Option<Type>, Memory>
    ensures { IfOk result (λ t. t ≡ array_of c.now element) }
{
    if !is_bound(c) {
        return Ok(None);
    }
    let of = Box::new(alloc, element.into_shape())?;
    let length = c.value as u32;
    Ok(Some(Type::new(CType::Array { of, length })))
}

/// The array with these bounds; None where a bound is missing or no length.
fn bounded(alloc: Global, bounds: &[Bound], element: Type) -> Result<Option<Type>, Memory>
    ensures { IfOk result (λ t. t ≡ bounded_array bounds.now element) }
{
    let [bound, rest @ ..] = bounds else {
        return Ok(Some(element));
    };
    let Some(inner) = bounded(alloc, rest, element)? else {
        return Ok(None);
    };
    match &bound.length {
        None => Ok(None),
        Some(c) => array_of(alloc, c, inner),
    }
}

/// The array with these bounds, of which the first may be missing.
fn with_bounds(alloc: Global, bounds: &[Bound], element: Type) -> Result<Option<Type>, Memory>
    ensures { IfOk result (λ t. t ≡ with_bounds bounds.now element) }
{
    let [bound, rest @ ..] = bounds else {
        return Ok(Some(element));
    };
    let Some(inner) = bounded(alloc, rest, element)? else {
        return Ok(None);
    };
    match &bound.length {
        None => {
            let of = Box::new(alloc, inner.into_shape())?;
            Ok(Some(Type::new(CType::Array { of, length: 0 })))
        }
        Some(c) => array_of(alloc, c, inner),
    }
}

/// The type of a declared name; None where one of its bounds is wrong.
pub fn declared_type(
    alloc: Global,
    declarator: &Declarator,
    base: &Type,
) -> Result<Option<Type>, Memory>
    ensures { IfOk result (λ t. t ≡ declared_type declarator.now base.now) }
{
    let element = with_stars(alloc, declarator.stars, base)?;
    with_bounds(alloc, declarator.bounds.as_slice(), element)
}

/// Whether it is an array whose length an initialiser is to give, and its elements may be objects.
pub fn is_open(structs: &[StructType], ctype: &Type) -> bool
    ensures { result ≡ is_open structs.now ctype.now }
{
    match ctype.shape() {
        CType::Array { of, length } => *length == 0 && is_object(structs, of),
        CType::Void | CType::Char | CType::Int | CType::Unsigned => false,
        CType::Pointer { .. } | CType::Struct { .. } => false,
    }
}
