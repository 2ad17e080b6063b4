ghost use Rattle.std.specs.Prelude.{◌≡◌, OnOk};
ghost use Rattle.c_types_rules.specs.Plain.{plain_type};
ghost use Rattle.c_types_rules.specs.TypeTree.{Struct};
ghost use Rattle.c_types_rules.specs.Sizes.{is_complete, is_object, capped_cells, cells_of, struct_cells, with_member, empty_struct};

use crate::ctype::{CType, Type};
use cbi_base::{Memory, Name, Seq};
use std::alloc::Global;

/// The most cells of an object, and of all globals together.
const MOST_CELLS: u32 = 1_048_576;

/// A member of a struct, with its offset in cells.
#[derive(Debug, Drop)]
pub struct Member {
    pub name: Name,
    pub ctype: Type,
    pub offset: u32,
}

/// A struct: its members, and its size in cells.
#[derive(Debug, Drop)]
pub struct StructType {
    pub members: Seq<Member>,
    pub cells: u32,
}

/// Whether objects of the type are known whole, where these structs are.
pub fn is_complete(structs: &[StructType], ctype: &CType) -> bool
    ensures { result ≡ is_complete structs.now (plain_type ctype.now) }
{
    match ctype {
        CType::Char | CType::Int | CType::Unsigned | CType::Pointer { .. } => true,
        CType::Void => false,
        CType::Array { of, length } => 0 < *length && is_complete(structs, of),
        CType::Struct { tag } => (*tag as usize) < structs.len(),
    }
}

/// The number, or one past the limit where it is over it.
fn capped(cells: u64) -> u32
    ensures { result ≡ capped_cells cells }
{
    if cells <= MOST_CELLS as u64 {
        cells as u32
    } else {
        MOST_CELLS + 1
    }
}

/// The cells of the struct with this number, or 0 where there is none.
fn struct_cells(structs: &[StructType], tag: u32) -> u32
    ensures { result ≡ capped_cells (cells_of structs.now (Struct tag)) }
{
    match structs.get(tag as usize) {
        None => 0,
        Some(known) => capped(known.cells as u64),
    }
}

/// The cells of an object of the type. All sizes over the limit of 1,048,576 are answered as one past it.
#[tactic(auto, using(crate::proofs::Capped::capped_product))]
pub fn cells_of(structs: &[StructType], ctype: &CType) -> u32
    ensures { result ≡ capped_cells (cells_of structs.now (plain_type ctype.now)) }
{
    match ctype {
        CType::Char | CType::Int | CType::Unsigned | CType::Pointer { .. } => 1,
        CType::Void => 0,
        CType::Array { of, length } => capped(*length as u64 * cells_of(structs, of) as u64),
        CType::Struct { tag } => struct_cells(structs, *tag),
    }
}

/// Whether an object may have the type: it is complete, and its size within the limit.
pub fn is_object(structs: &[StructType], ctype: &CType) -> bool
    ensures { result ≡ is_object structs.now (plain_type ctype.now) }
{
    is_complete(structs, ctype) && cells_of(structs, ctype) <= MOST_CELLS
}

impl StructType {
    /// A struct without members yet.
    pub fn new(alloc: Global) -> StructType
        ensures { result ≡ empty_struct }
    {
        StructType {
            members: Seq::new(alloc),
            cells: 0,
        }
    }
}

/// A member is added behind the others.
pub fn with_member(
    structs: &[StructType],
    known: &mut StructType,
    name: Name,
    ctype: Type,
) -> Result<(), Memory>
    ensures { OnOk result (known.new ≡ with_member structs.now name ctype known.old) }
{
    let cells = cells_of(structs, ctype.shape());
    let offset = known.cells;
    known.members.push(Member {
        name,
        ctype,
        offset,
    })?;
    known.cells = capped(offset as u64 + cells as u64);
    Ok(())
}
