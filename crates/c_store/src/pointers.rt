//! What is asked of pointers apart from the objects that they lead to.

ghost use Rattle.std.specs.Prelude.{◌≡◌, ◌≤◌, pos, ◌+ℤ◌, Ok, IfOk, IfSome, unsigned_abs};
ghost use Rattle.cbi_base.specs.Objects.{of_pointers, same_place, in_order, elements_between, cell_limit};
ghost use Rattle.c_store.specs.Places.{moved_to};

use crate::word::Word;
use cbi_base::{Order, Scalar, Trap};

/// Two pointers, or the trap: an undefined one stops first, and then a number.
pub fn check_pointers(left: Scalar, right: Scalar) -> Result<(), Trap>
    ensures { result ≡ of_pointers left right (Ok tt) }
{
    match (left, right) {
        (Scalar::Undefined, _) | (_, Scalar::Undefined) => Err(Trap::Undefined),
        (Scalar::Number { .. }, _) | (_, Scalar::Number { .. }) => Err(Trap::Internal),
        _ => Ok(()),
    }
}

/// The same object and offset, or null twice.
pub fn same_place(left: Scalar, right: Scalar) -> bool
    ensures { result ≡ same_place left right }
{
    match (left, right) {
        (Scalar::Null, Scalar::Null) => true,
        (
            Scalar::Place { object, offset },
            Scalar::Place {
                object: other,
                offset: at,
            },
        ) => object == other && offset == at,
        _ => false,
    }
}

/// Two offsets in one object, compared.
pub fn in_order(order: Order, left: u32, right: u32) -> bool
    ensures { result ≡ in_order order left right }
{
    match order {
        Order::Lt => left < right,
        Order::Le => left <= right,
        Order::Gt => left > right,
        Order::Ge => left >= right,
        Order::Eq => left == right,
        Order::Ne => left != right,
    }
}

/// How many elements of this size so many cells are.
pub fn elements(size: u32, cells: i64) -> Result<i64, Trap>
    requires { 1 ≤ size }
    ensures value { result ≡ elements_between size cells }
    ensures near { IfOk result (λ count. unsigned_abs count ≤ unsigned_abs cells) }
{
    let size = i64::from(size);
    if cells % size == 0 {
        Ok(cells / size)
    } else {
        Err(Trap::Bounds)
    }
}

/// An offset moved by so many cells in an object of this length, or to its end; None where that is not in it.
#[inline(always)]
pub fn offset_in(offset: u32, cells: i64, length: u32) -> Option<u32>
    ensures moved { IfSome result (λ to. pos to ≡ pos offset +ℤ cells) }
    ensures within { IfSome result (λ to. to ≤ length) }
{
    match i64::from(offset).checked_add(cells) {
        Some(to) if 0 <= to && to <= i64::from(length) => Some(to as u32),
        _ => None,
    }
}

/// A place moved by so many cells in an object of this length, or to its end.
#[inline(always)]
pub fn move_in(object: u64, offset: u32, cells: i64, length: u32) -> Result<Word, Trap>
    requires { length ≤ cell_limit }
    ensures { result ≡ moved_to object offset cells length }
{
    match i64::from(offset).checked_add(cells) {
        Some(to) if 0 <= to && to <= i64::from(length) => Ok(Word::place(object, to as u32)),
        _ => Err(Trap::Bounds),
    }
}
