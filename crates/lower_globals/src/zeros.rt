ghost use Rattle.std.specs.Prelude.{◌≡◌, ◌∷◌, [], IfOk, drop, slice_get, unwrap_or};
ghost use Rattle.c_types_rules.specs.Plain.{plain_type};
ghost use Rattle.c_meaning.specs.Globals.{cells_of_structs, filled_up, zero_cells};
ghost use Rattle.lower_globals.specs.Zeros.{member_zeros, cells_repeated};

use c_types_rules::{CType, Member, StructType};
use cbi_base::{Kind, Memory, Scalar, Seq};
use std::alloc::Global;

/// A list of one value.
pub(crate) fn one(alloc: Global, value: Scalar) -> Result<Seq<Scalar>, Memory>
    ensures { IfOk result (λ cells. cells ≡ value ∷ []) }
{
    let mut cells = Seq::new(alloc);
    cells.push(value)?;
    Ok(cells)
}

/// The cells, so many times.
#[tactic(auto, using(crate::proofs::Zeroed::once_more))]
fn repeated(alloc: Global, count: u32, element: &[Scalar]) -> Result<Seq<Scalar>, Memory>
    ensures { IfOk result (λ cells. cells ≡ cells_repeated count element.now) }
{
    let mut cells = Vec::new(alloc);
    for _ in 0..count {
        cells.extend_from_slice(element)?;
    }
    Ok(Seq::from_vec(cells))
}

/// Zero in each cell of a struct with this number.
fn struct_zero(alloc: Global, before: &[Seq<Scalar>], tag: u32) -> Result<Seq<Scalar>, Memory>
    ensures { IfOk result (λ cells. cells ≡ unwrap_or (slice_get before.now tag) []) }
{
    match before.get(tag as usize) {
        None => Ok(Seq::new(alloc)),
        Some(cells) => Ok(Seq::from_vec(Vec::from_slice(alloc, cells.as_slice())?)),
    }
}

/// Zero in each cell of an object of the type, or null, where these are the zeros of the structs.
pub(crate) fn zero_cells(
    alloc: Global,
    before: &[Seq<Scalar>],
    ctype: &CType,
) -> Result<Seq<Scalar>, Memory>
    ensures { IfOk result (λ cells. cells ≡ zero_cells before.now (plain_type ctype.now)) }
{
    match ctype {
        CType::Void => Ok(Seq::new(alloc)),
        CType::Char => one(
            alloc,
            Scalar::Number {
                kind: Kind::Char,
                value: 0,
            },
        ),
        CType::Int => one(
            alloc,
            Scalar::Number {
                kind: Kind::Int,
                value: 0,
            },
        ),
        CType::Unsigned => one(
            alloc,
            Scalar::Number {
                kind: Kind::Unsigned,
                value: 0,
            },
        ),
        CType::Pointer { .. } => one(alloc, Scalar::Null),
        CType::Array { of, length } => {
            let element = zero_cells(alloc, before, of)?;
            repeated(alloc, *length, element.as_slice())
        }
        CType::Struct { tag } => struct_zero(alloc, before, *tag),
    }
}

/// Zero in each cell of several members.
fn member_zeros(
    alloc: Global,
    before: &[Seq<Scalar>],
    members: &[Member],
) -> Result<Seq<Scalar>, Memory>
    ensures { IfOk result (λ cells. cells ≡ member_zeros before.now members.now) }
{
    let mut cells = Vec::new(alloc);
    for member in members {
        let zeros = zero_cells(alloc, before, member.ctype.shape())?;
        cells.extend_from_slice(zeros.as_slice())?;
    }
    Ok(Seq::from_vec(cells))
}

/// Zero in each cell of each struct.
pub(crate) fn struct_zeros(
    alloc: Global,
    structs: &[StructType],
) -> Result<Seq<Seq<Scalar>>, Memory>
    ensures { IfOk result (λ all. all ≡ cells_of_structs structs.now []) }
{
    let mut all = Vec::new(alloc);
    for known in structs {
        let cells = member_zeros(alloc, all.as_slice(), known.members.as_slice())?;
        all.push(cells)?;
    }
    Ok(Seq::from_vec(all))
}

/// The cells behind the first so many.
fn behind(cells: &[Scalar], count: usize) -> &[Scalar]
    ensures { result.now ≡ drop count cells.now }
{
    let count = count.min(cells.len());
    &cells[count..]
}

/// The given cells, and zeros in the others.
pub(crate) fn filled_up(zeros: &[Scalar], given: Seq<Scalar>) -> Result<Seq<Scalar>, Memory>
    ensures { IfOk result (λ cells. cells ≡ filled_up zeros.now given) }
{
    let rest = behind(zeros, given.len());
    let mut cells = given.into_vec();
    cells.extend_from_slice(rest)?;
    Ok(Seq::from_vec(cells))
}
