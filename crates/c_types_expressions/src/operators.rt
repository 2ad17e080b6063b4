ghost use Rattle.std.specs.Prelude.{◌≡◌, IfOk};
ghost use Rattle.c_types_expressions.specs.ExprWalk.{typed_assignment, binary_of, typed_chain_operation, compound_of, typed_prefix_operation};

use c_syntax::{PrefixOperator, Sign};
use c_types_rules::{
    Looked, Operand, StructType, addressed, assigned, combined, compounded, joined, measured,
    pointed, signed, stepped, turned,
};
use cbi_base::{Binary, Memory, Unary};
use std::alloc::Global;

/// The operator on two values that the sign of a chain stands for. `&&` and `||` are none.
pub fn binary_of(sign: Sign) -> Option<Binary>
    ensures { result ≡ binary_of sign }
{
    match sign {
        Sign::Bar => Some(Binary::Or),
        Sign::Caret => Some(Binary::Xor),
        Sign::Ampersand => Some(Binary::And),
        Sign::EqualEqual => Some(Binary::Eq),
        Sign::NotEqual => Some(Binary::Ne),
        Sign::Less => Some(Binary::Lt),
        Sign::Greater => Some(Binary::Gt),
        Sign::LessEqual => Some(Binary::Le),
        Sign::GreaterEqual => Some(Binary::Ge),
        Sign::ShiftLeft => Some(Binary::Shl),
        Sign::ShiftRight => Some(Binary::Shr),
        Sign::Plus => Some(Binary::Add),
        Sign::Minus => Some(Binary::Sub),
        Sign::Star => Some(Binary::Mul),
        Sign::Slash => Some(Binary::Div),
        Sign::Percent => Some(Binary::Rem),
        _ => None,
    }
}

/// The operator of a compound assignment. `=` has none.
pub fn compound_of(sign: Sign) -> Option<Binary>
    ensures { result ≡ compound_of sign }
{
    match sign {
        Sign::StarEqual => Some(Binary::Mul),
        Sign::SlashEqual => Some(Binary::Div),
        Sign::PercentEqual => Some(Binary::Rem),
        Sign::PlusEqual => Some(Binary::Add),
        Sign::MinusEqual => Some(Binary::Sub),
        Sign::ShiftLeftEqual => Some(Binary::Shl),
        Sign::ShiftRightEqual => Some(Binary::Shr),
        Sign::AndEqual => Some(Binary::And),
        Sign::XorEqual => Some(Binary::Xor),
        Sign::OrEqual => Some(Binary::Or),
        _ => None,
    }
}

/// An operator of a chain with its two operands.
pub fn chained(structs: &[StructType], op: Option<Binary>, left: Operand, right: Operand) -> Looked
    ensures { result ≡ typed_chain_operation structs.now op left right }
{
    match op {
        None => joined(&left, &right),
        Some(op) => combined(structs, op, left, right),
    }
}

/// An assignment, with an operator or without.
pub fn assigning(
    alloc: Global,
    structs: &[StructType],
    op: Option<Binary>,
    target: Operand,
    value: Operand,
) -> Result<Looked, Memory>
    ensures { IfOk result (λ r. r ≡ typed_assignment structs.now op target value) }
{
    match op {
        None => Ok(assigned(target, &value)),
        Some(op) => compounded(alloc, structs, op, target, value),
    }
}

/// An operator before its operand.
pub fn prefixed(
    alloc: Global,
    structs: &[StructType],
    operator: PrefixOperator,
    operand: Operand,
) -> Result<Looked, Memory>
    ensures { IfOk result (λ r. r ≡ typed_prefix_operation structs.now operator operand) }
{
    match operator {
        PrefixOperator::Increment | PrefixOperator::Decrement => Ok(stepped(structs, operand)),
        PrefixOperator::SizeOf => Ok(measured(structs, &operand.ctype)),
        PrefixOperator::Address => addressed(alloc, operand),
        PrefixOperator::Indirection => Ok(pointed(operand)),
        PrefixOperator::Plus => Ok(signed(operand)),
        PrefixOperator::Minus => Ok(turned(Unary::Neg, operand)),
        PrefixOperator::Complement => Ok(turned(Unary::Com, operand)),
        PrefixOperator::Not => Ok(turned(Unary::Not, operand)),
    }
}
