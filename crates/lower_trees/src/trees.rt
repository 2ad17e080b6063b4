ghost use Rattle.std.specs.Prelude.{◌≡◌};
ghost use Rattle.c_syntax.specs.Plain.{plain_expr, plain_links, plain_operators};
ghost use Rattle.c_meaning.specs.Words.{is_null_as, is_null_constant, ends_as_place, is_null_beside, is_place, link_token, postfix_token, token_of};

use c_meaning::{ValueType, is_pointer};
use c_syntax::{Expr, Link, PostfixOperator, PrefixOperator};
use cbi_base::Binary;

/// The token at which the type of the expression is known: that of its last operator.
#[cycle(token_of)]
pub fn token_of(expr: &Expr) -> u32
    ensures { result ≡ token_of (plain_expr expr.now) }
{
    match expr {
        Expr::Chain { first, links, .. } => link_token(token_of(first), links.as_slice()),
        Expr::Postfix { primary, operators } => {
            postfix_token(token_of(primary), operators.as_slice())
        }
        Expr::Comma { token, .. }
        | Expr::Assign { token, .. }
        | Expr::Conditional { token, .. }
        | Expr::Cast { token, .. }
        | Expr::Prefix { token, .. }
        | Expr::SizeOfType { token, .. }
        | Expr::Name { token, .. }
        | Expr::Call { token, .. }
        | Expr::Constant { token, .. }
        | Expr::Strings { token, .. }
        | Expr::Paren { token, .. }
        | Expr::Null { token }
        | Expr::EndOfFile { token } => *token,
    }
}

/// The token of the last operator of a chain, or this one where there is none.
pub fn link_token(token: u32, links: &[Link]) -> u32
    ensures { result ≡ link_token token (plain_links links.now) }
{
    let mut last = token;
    for link in links {
        last = link.token;
    }
    last
}

/// The token of the last operator behind an operand, or this one where there is none.
pub fn postfix_token(token: u32, operators: &[PostfixOperator]) -> u32
    ensures { result ≡ postfix_token token (plain_operators operators.now) }
{
    let mut last = token;
    for operator in operators {
        last = match operator {
            PostfixOperator::Index { token, .. }
            | PostfixOperator::Member { token, .. }
            | PostfixOperator::Arrow { token, .. }
            | PostfixOperator::Increment { token }
            | PostfixOperator::Decrement { token } => *token,
        };
    }
    last
}

/// Whether what the operators lead to is a place, where what stands before them is one or not.
pub fn ends_as_place(begins: bool, operators: &[PostfixOperator]) -> bool
    ensures { result ≡ ends_as_place begins (plain_operators operators.now) }
{
    let mut ends = begins;
    for operator in operators {
        ends = match operator {
            PostfixOperator::Index { .. }
            | PostfixOperator::Member { .. }
            | PostfixOperator::Arrow { .. } => true,
            PostfixOperator::Increment { .. } | PostfixOperator::Decrement { .. } => false,
        };
    }
    ends
}

/// Whether the expression is a place.
#[cycle(is_place)]
pub fn is_place(expr: &Expr) -> bool
    ensures { result ≡ is_place (plain_expr expr.now) }
{
    match expr {
        Expr::Name { .. } => true,
        Expr::Prefix { operator, .. } => matches!(operator, PrefixOperator::Indirection),
        Expr::Postfix { primary, operators } => {
            ends_as_place(is_place(primary), operators.as_slice())
        }
        Expr::Paren { inner, .. } => is_place(inner),
        Expr::Comma { .. } | Expr::Assign { .. } | Expr::Conditional { .. } => false,
        Expr::Chain { .. } | Expr::Cast { .. } | Expr::SizeOfType { .. } => false,
        Expr::Call { .. } | Expr::Constant { .. } | Expr::Strings { .. } => false,
        Expr::Null { .. } | Expr::EndOfFile { .. } => false,
    }
}

/// Whether it is a null constant: NULL, or a constant zero that isn't within parentheses.
pub fn is_null_constant(expr: &Expr) -> bool
    ensures { result ≡ is_null_constant (plain_expr expr.now) }
{
    match expr {
        Expr::Null { .. } => true,
        Expr::Constant { value, .. } => *value == 0,
        Expr::Comma { .. } | Expr::Assign { .. } | Expr::Conditional { .. } => false,
        Expr::Chain { .. } | Expr::Cast { .. } | Expr::Prefix { .. } => false,
        Expr::SizeOfType { .. } | Expr::Postfix { .. } | Expr::Name { .. } => false,
        Expr::Call { .. } | Expr::Strings { .. } | Expr::Paren { .. } => false,
        Expr::EndOfFile { .. } => false,
    }
}

/// Whether it is a null constant where a pointer is wanted.
pub fn is_null_as(wanted: Option<ValueType>, expr: &Expr) -> bool
    ensures { result ≡ is_null_as wanted (plain_expr expr.now) }
{
    is_pointer(wanted) && is_null_constant(expr)
}

/// Whether a null constant is a null pointer because it is compared with a value of this type.
pub fn is_null_beside(op: Option<Binary>, other: Option<ValueType>, expr: &Expr) -> bool
    ensures { result ≡ is_null_beside op other (plain_expr expr.now) }
{
    match op {
        Some(Binary::Eq) | Some(Binary::Ne) => is_null_as(other, expr),
        _ => false,
    }
}
