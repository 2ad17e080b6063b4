ghost use Rattle.std.specs.Prelude.{◌≡◌, OnOk};
ghost use Rattle.c_types_walk.specs.ItemWalk.{struct_defined, typed_member, walk_declarators, walk_member, walk_members, walk_struct, with_tag};
ghost use Rattle.c_types_expressions.specs.Words.{HasRoomLeft, HasRoom, Fine, IsWalked};

use crate::declarators::declared_type;
use c_syntax::{Declarator, Members};
use c_types_expressions::{Meaning, Stop, Walk, base_type, next_number};
use c_types_rules::{FaultKind, StructType, Type, is_object, member_named, with_member};
use cbi_base::Name;
use std::alloc::Global;

/// The most cells of a struct.
const MOST_CELLS: u32 = 1_048_576;

/// A member of the type.
fn typed_member(
    walk: &mut Walk,
    declarator: &Declarator,
    ctype: Option<Type>,
    known: StructType,
) -> Result<StructType, Stop>
    ensures walked { IsWalked (typed_member declarator.now ctype known walk.old) result walk.new }
    ensures left { OnOk result (HasRoomLeft 0 0 walk.old walk.new) }
{
    let Some(ctype) = ctype else {
        return Err(Stop::fault(FaultKind::Object, declarator.token));
    };
    if !is_object(walk.structs.as_slice(), ctype.shape()) {
        return Err(Stop::fault(FaultKind::Object, declarator.token));
    }
    let mut known = known;
    let name = declarator.name.try_clone()?;
    with_member(walk.structs.as_slice(), &mut known, name, ctype)?;
    Ok(known)
}

/// A member, whose name is new in its struct.
fn walk_member(
    alloc: Global,
    walk: &mut Walk,
    base: &Type,
    declarator: &Declarator,
    known: StructType,
) -> Result<StructType, Stop>
    ensures walked { IsWalked (walk_member base.now declarator.now known walk.old) result walk.new }
    ensures left { OnOk result (HasRoomLeft 0 0 walk.old walk.new) }
{
    if member_named(&declarator.name, known.members.as_slice()).is_some() {
        return Err(Stop::fault(FaultKind::Redeclared, declarator.token));
    }
    let ctype = declared_type(alloc, declarator, base)?;
    typed_member(walk, declarator, ctype, known)
}

/// The members of one line.
fn walk_declarators(
    alloc: Global,
    walk: &mut Walk,
    base: &Type,
    declarators: &[Declarator],
    first: StructType,
) -> Result<StructType, Stop>
    ensures walked { IsWalked (walk_declarators base.now declarators.now first walk.old) result walk.new }
    ensures left { OnOk result (HasRoomLeft 0 0 walk.old walk.new) }
{
    let mut known = first;
    for declarator in declarators {
        known = walk_member(alloc, walk, base, declarator, known)?;
    }
    Ok(known)
}

/// All members of a struct, behind those that are known.
fn walk_members(
    alloc: Global,
    walk: &mut Walk,
    members: &[Members],
    first: StructType,
) -> Result<StructType, Stop>
    ensures walked { IsWalked (walk_members members.now first walk.old) result walk.new }
    ensures left { OnOk result (HasRoomLeft 0 0 walk.old walk.new) }
{
    let mut known = first;
    for line in members {
        let base = base_type(walk, &line.base)?;
        known = walk_declarators(alloc, walk, &base, line.declarators.as_slice(), known)?;
    }
    Ok(known)
}

/// A tag comes into scope.
fn declare_tag(walk: &mut Walk, tag: &Name) -> Result<(), Stop>
    requires { HasRoom 1 walk.old }
    ensures walked { IsWalked (Fine tt (with_tag tag.now walk.old)) result walk.new }
    ensures left { OnOk result (HasRoomLeft 0 0 walk.old walk.new) }
{
    let index = next_number(walk.structs.len());
    walk.tags.declare(tag, Meaning::Struct { index })?;
    Ok(())
}

/// A struct with all its members.
fn defined(walk: &mut Walk, token: u32, twice: bool, known: StructType) -> Result<(), Stop>
    ensures walked { IsWalked (struct_defined token twice known walk.old) result walk.new }
    ensures left { OnOk result (HasRoomLeft 1 0 walk.old walk.new) }
{
    if twice {
        return Err(Stop::fault(FaultKind::Redeclared, token));
    }
    if MOST_CELLS < known.cells {
        return Err(Stop::fault(FaultKind::Object, token));
    }
    walk.structs.push(known)?;
    Ok(())
}

/// The definition of a struct.
pub fn walk_struct(
    alloc: Global,
    walk: &mut Walk,
    token: u32,
    tag: &Name,
    members: &[Members],
) -> Result<(), Stop>
    requires { HasRoom 1 walk.old }
    ensures walked { IsWalked (walk_struct token tag.now members.now walk.old) result walk.new }
    ensures left { OnOk result (HasRoomLeft 1 0 walk.old walk.new) }
{
    let twice = walk.tags.is_here(tag);
    declare_tag(walk, tag)?;
    let known = walk_members(alloc, walk, members, StructType::new(alloc))?;
    defined(walk, token, twice, known)
}
