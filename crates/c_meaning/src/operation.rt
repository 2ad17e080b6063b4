ghost use Rattle.std.specs.Prelude.{◌≡◌};
ghost use Rattle.c_types_rules.specs.Laws.{common_kind, promoted_kind};
ghost use Rattle.c_meaning.specs.Operation.{is_shift, is_step_size, left_kind, moves_left, moves_right, on_pointers, operation, order_of, right_kind};

use crate::value_type::{ValueType, as_used};
use cbi_base::{Binary, Kind, Order};

/// What an operator does with two values, by their types.
#[derive(Clone, Copy, Debug)]
pub enum Operation {
    /// Two numbers are converted, and then calculated with.
    Numbers { op: Binary, left: Kind, right: Kind },
    /// The left one, a pointer, is moved by the right one times so many cells.
    MoveLeft { size: i32 },
    /// The right one, a pointer, is moved by the left one times so many cells.
    MoveRight { size: i32 },
    /// How many elements of so many cells lie between two pointers.
    Span { size: u32 },
    /// Two pointers are compared.
    Ordered { order: Order },
    /// There is none.
    Wrong,
}

/// Whether elements have so many cells.
fn is_step(size: u32) -> bool
    ensures { result ≡ is_step_size size }
{
    1 <= size && size <= 1_048_576
}

fn moves_left(op: Binary, size: u32) -> Operation
    ensures { result ≡ moves_left op size }
{
    if !is_step(size) {
        return Operation::Wrong;
    }
    match op {
        Binary::Add => Operation::MoveLeft { size: size as i32 },
        Binary::Sub => Operation::MoveLeft {
            size: -(size as i32),
        },
        _ => Operation::Wrong,
    }
}

fn moves_right(op: Binary, size: u32) -> Operation
    ensures { result ≡ moves_right op size }
{
    if !is_step(size) {
        return Operation::Wrong;
    }
    match op {
        Binary::Add => Operation::MoveRight { size: size as i32 },
        _ => Operation::Wrong,
    }
}

fn order_of(op: Binary) -> Option<Order>
    ensures { result ≡ order_of op }
{
    match op {
        Binary::Lt => Some(Order::Lt),
        Binary::Le => Some(Order::Le),
        Binary::Gt => Some(Order::Gt),
        Binary::Ge => Some(Order::Ge),
        Binary::Eq => Some(Order::Eq),
        Binary::Ne => Some(Order::Ne),
        _ => None,
    }
}

fn on_pointers(op: Binary, size: u32) -> Operation
    ensures { result ≡ on_pointers op size }
{
    match op {
        Binary::Sub => {
            if is_step(size) {
                Operation::Span { size }
            } else {
                Operation::Wrong
            }
        }
        _ => match order_of(op) {
            Some(order) => Operation::Ordered { order },
            None => Operation::Wrong,
        },
    }
}

/// What the operator does with values of these types.
pub fn operation_of(op: Binary, left: Option<ValueType>, right: Option<ValueType>) -> Operation
    ensures { result ≡ operation op left right }
{
    match (as_used(left), as_used(right)) {
        (Some(ValueType::Number { kind: left }), Some(ValueType::Number { kind: right })) => {
            Operation::Numbers { op, left, right }
        }
        (Some(ValueType::Pointer { size }), Some(ValueType::Number { .. })) => moves_left(op, size),
        (Some(ValueType::Number { .. }), Some(ValueType::Pointer { size })) => moves_right(
            op, size,
        ),
        (Some(ValueType::Pointer { size }), Some(ValueType::Pointer { .. })) => on_pointers(
            op, size,
        ),
        _ => Operation::Wrong,
    }
}

/// `char` is promoted to `int` (C99 6.3.1.1p2).
fn promoted_kind(kind: Kind) -> Kind
    ensures { result ≡ promoted_kind kind }
{
    match kind {
        Kind::Char => Kind::Int,
        other => other,
    }
}

/// The usual arithmetic conversions (C99 6.3.1.8).
fn common_kind(left: Kind, right: Kind) -> Kind
    ensures { result ≡ common_kind left right }
{
    match (left, right) {
        (Kind::Unsigned, _) | (_, Kind::Unsigned) => Kind::Unsigned,
        _ => Kind::Int,
    }
}

fn is_shift(op: Binary) -> bool
    ensures { result ≡ is_shift op }
{
    matches!(op, Binary::Shl | Binary::Shr)
}

/// The kind that the left operand is converted to: it is promoted before a shift, and else gets the common type.
pub fn left_kind(op: Binary, left: Kind, right: Kind) -> Kind
    ensures { result ≡ left_kind op left right }
{
    if is_shift(op) {
        promoted_kind(left)
    } else {
        common_kind(left, right)
    }
}

/// The kind that the right operand is converted to.
pub fn right_kind(op: Binary, left: Kind, right: Kind) -> Kind
    ensures { result ≡ right_kind op left right }
{
    if is_shift(op) {
        promoted_kind(right)
    } else {
        common_kind(left, right)
    }
}
