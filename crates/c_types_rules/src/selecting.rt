ghost use Rattle.std.specs.Prelude.{◌≡◌, IfOk, IfErr, Ok, Err, option_copied, slice_get};
ghost use Rattle.c_types_rules.specs.Conversions.{decayed_type};
ghost use Rattle.c_types_rules.specs.Plain.{plain_type};
ghost use Rattle.c_types_rules.specs.TypeTree.{Void};
ghost use Rattle.c_types_rules.specs.Selecting.{typed_alternatives, typed_conditional, typed_comma, pointed_type, typed_indirection, typed_address};
ghost use Rattle.c_types_rules.specs.Selecting.{typed_subscript, member_named, member_in, member_of};
ghost use Rattle.c_types_rules.specs.Selecting.{member_behind};

use crate::conversions::{
    common, decayed, is_pointer, is_scalar_value, is_struct, is_void, is_void_pointer, place_of,
    value_of,
};
use crate::ctype::{CType, Type, pointer_to};
use crate::fault::FaultKind;
use crate::layout::{Member, StructType};
use crate::operand::{Looked, Operand};
use crate::operators::{added, both_arithmetic, gives, pointers_join};
use cbi_base::{Memory, Name};
use std::alloc::Global;

/// The second or the third operand of `? :`.
fn either(x: Operand, y: Operand) -> Looked
    ensures { result ≡ typed_alternatives x y }
{
    let left = decayed(x.ctype);
    let right = decayed(y.ctype);
    if both_arithmetic(&left, &right) {
        return Ok(value_of(common(&left, &right)));
    }
    if is_void(&left) && is_void(&right) {
        return Ok(value_of(CType::Void));
    }
    let fits = pointers_join(&left, x.null, &right, y.null);
    if x.null && is_pointer(&right) {
        gives(fits, right)
    } else if y.null || is_void_pointer(&left) {
        gives(fits, left)
    } else {
        gives(fits, right)
    }
}

/// A `? :`.
pub fn chosen(condition: &Operand, x: Operand, y: Operand) -> Looked
    ensures { result ≡ typed_conditional condition.now x y }
{
    if is_scalar_value(condition) {
        return either(x, y);
    }
    Err(FaultKind::Operands)
}

/// The value of a comma expression with these operands. It is `void` where there is none.
pub fn sequenced(alloc: Global, operands: &[Operand]) -> Result<Looked, Memory>
    ensures { IfOk result (λ r. r ≡ typed_comma Void operands.now) }
{
    let mut last = CType::Void;
    for x in operands {
        if is_struct(x.ctype.shape()) {
            return Ok(Err(FaultKind::Operands));
        }
        last = decayed(x.ctype.try_clone(alloc)?);
    }
    Ok(Ok(value_of(last)))
}

/// What a value of the type points to.
fn pointed_type(shape: CType) -> Looked
    ensures { result ≡ pointed_type (plain_type shape) }
{
    let kind = FaultKind::Operands;
    match shape {
        CType::Pointer { to } => {
            if is_void(&to) {
                return Err(kind);
            }
            Ok(place_of(Box::into_inner(to)))
        }
        CType::Void | CType::Char | CType::Int | CType::Unsigned => Err(kind),
        CType::Array { .. } | CType::Struct { .. } => Err(kind),
    }
}

/// `*` before its operand.
pub fn pointed(x: Operand) -> Looked
    ensures { result ≡ typed_indirection x }
{
    pointed_type(decayed(x.ctype))
}

/// `&` before its operand.
pub fn addressed(alloc: Global, x: Operand) -> Result<Looked, Memory>
    ensures { IfOk result (λ r. r ≡ typed_address x) }
{
    if !x.place {
        return Ok(Err(FaultKind::NoPlace));
    }
    let ctype = pointer_to(alloc, x.ctype)?;
    Ok(Ok(value_of(ctype.into_shape())))
}

/// An index behind its operand.
pub fn indexed(structs: &[StructType], x: Operand, y: Operand) -> Looked
    ensures { result ≡ typed_subscript structs.now x y }
{
    match added(structs, decayed(x.ctype), decayed(y.ctype)) {
        Ok(moved) => pointed(moved),
        Err(kind) => Err(kind),
    }
}

/// The member with this name.
pub fn member_named<'a>(name: &Name, members: &'a [Member]) -> Option<&'a Member>
    ensures { option_copied result ≡ member_named name.now members.now }
{
    for member in members {
        if member.name.bytes() == name.bytes() {
            return Some(member);
        }
    }
    None
}

/// The member with this name of the struct with this number.
fn member_in<'a>(structs: &'a [StructType], name: &Name, tag: u32) -> Result<&'a Member, FaultKind>
    ensures ok { IfOk result (λ m. member_in name.now (slice_get structs.now tag) ≡ Ok m.now) }
    ensures err { IfErr result (λ kind. member_in name.now (slice_get structs.now tag) ≡ Err kind) }
{
    match structs.get(tag as usize) {
        None => Err(FaultKind::Unknown),
        Some(known) => match member_named(name, known.members.as_slice()) {
            None => Err(FaultKind::Unknown),
            Some(member) => Ok(member),
        },
    }
}

/// The member with this name of a struct of this type.
pub fn member_of<'a>(
    structs: &'a [StructType],
    name: &Name,
    ctype: &CType,
) -> Result<&'a Member, FaultKind>
    ensures ok { IfOk result (λ m. member_of structs.now name.now (plain_type ctype.now) ≡ Ok m.now) }
    ensures err { IfErr result (λ kind. member_of structs.now name.now (plain_type ctype.now) ≡ Err kind) }
{
    match ctype {
        CType::Struct { tag } => member_in(structs, name, *tag),
        CType::Void | CType::Char | CType::Int | CType::Unsigned => Err(FaultKind::Operands),
        CType::Pointer { .. } | CType::Array { .. } => Err(FaultKind::Operands),
    }
}

/// The member with this name of the struct that a value of this type points to.
pub fn member_behind<'a>(
    structs: &'a [StructType],
    name: &Name,
    ctype: &Type,
) -> Result<&'a Member, FaultKind>
    ensures ok { IfOk result (λ m. member_behind structs.now name.now (decayed_type ctype.now) ≡ Ok m.now) }
    ensures err { IfErr result (λ kind. member_behind structs.now name.now (decayed_type ctype.now) ≡ Err kind) }
{
    match ctype.shape() {
        CType::Pointer { to } => member_of(structs, name, to),
        CType::Array { of, .. } => member_of(structs, name, of),
        CType::Void | CType::Char | CType::Int => Err(FaultKind::Operands),
        CType::Unsigned | CType::Struct { .. } => Err(FaultKind::Operands),
    }
}
