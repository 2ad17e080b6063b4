ghost use Rattle.std.specs.Prelude.{◌≡◌};
ghost use Rattle.program_lines.specs.Words.{binary_of, bitwise_of, comparison_of, order_of, unary_of};

use cbi_base::{Binary, Order, Unary};

fn comparison(field: &[u8]) -> Option<Binary>
    ensures { result ≡ comparison_of field.now }
{
    if field == b"lt".as_slice() {
        return Some(Binary::Lt);
    }
    if field == b"le".as_slice() {
        return Some(Binary::Le);
    }
    if field == b"gt".as_slice() {
        return Some(Binary::Gt);
    }
    if field == b"ge".as_slice() {
        return Some(Binary::Ge);
    }
    if field == b"eq".as_slice() {
        return Some(Binary::Eq);
    }
    if field == b"ne".as_slice() {
        return Some(Binary::Ne);
    }
    None
}

fn bitwise(field: &[u8]) -> Option<Binary>
    ensures { result ≡ bitwise_of field.now }
{
    if field == b"shl".as_slice() {
        return Some(Binary::Shl);
    }
    if field == b"shr".as_slice() {
        return Some(Binary::Shr);
    }
    if field == b"and".as_slice() {
        return Some(Binary::And);
    }
    if field == b"or".as_slice() {
        return Some(Binary::Or);
    }
    if field == b"xor".as_slice() {
        return Some(Binary::Xor);
    }
    comparison(field)
}

/// The operation with this word.
#[tactic(auto, unfolding(crate::specs::Words::binary_of))]
pub fn binary(field: &[u8]) -> Option<Binary>
    ensures { result ≡ binary_of field.now }
{
    if field == b"add".as_slice() {
        return Some(Binary::Add);
    }
    if field == b"sub".as_slice() {
        return Some(Binary::Sub);
    }
    if field == b"mul".as_slice() {
        return Some(Binary::Mul);
    }
    if field == b"div".as_slice() {
        return Some(Binary::Div);
    }
    if field == b"rem".as_slice() {
        return Some(Binary::Rem);
    }
    bitwise(field)
}

/// The operation on one value with this word.
#[tactic(auto, unfolding(crate::specs::Words::unary_of))]
pub fn unary(field: &[u8]) -> Option<Unary>
    ensures { result ≡ unary_of field.now }
{
    if field == b"neg".as_slice() {
        return Some(Unary::Neg);
    }
    if field == b"com".as_slice() {
        return Some(Unary::Com);
    }
    if field == b"not".as_slice() {
        return Some(Unary::Not);
    }
    None
}

/// How two pointers are compared, by its word.
#[tactic(auto, unfolding(crate::specs::Words::order_of))]
pub fn order(field: &[u8]) -> Option<Order>
    ensures { result ≡ order_of field.now }
{
    if field == b"lt".as_slice() {
        return Some(Order::Lt);
    }
    if field == b"le".as_slice() {
        return Some(Order::Le);
    }
    if field == b"gt".as_slice() {
        return Some(Order::Gt);
    }
    if field == b"ge".as_slice() {
        return Some(Order::Ge);
    }
    if field == b"eq".as_slice() {
        return Some(Order::Eq);
    }
    if field == b"ne".as_slice() {
        return Some(Order::Ne);
    }
    None
}
