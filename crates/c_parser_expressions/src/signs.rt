ghost use Rattle.std.specs.Prelude.{◌≡◌, ◌≤◌};
ghost use Rattle.c_syntax.specs.Words.{plain_expr, level_of, is_assignment, expression_rank, prefix_of};
ghost use Rattle.c_syntax.specs.declared.token.TokenKind.TheVariants as kind;
ghost use Rattle.c_parser_expressions.specs.ExpressionParser.{prefix_at, level_sign, postfix_sign, begins_choices, assignment_sign};
ghost use Rattle.c_parser_expressions.specs.Operators.{is_step};

use crate::cursor::Reader;
use c_syntax::{Expr, PrefixOperator, Sign, TokenKind, Word};

/// Which level of a chain the operator is of, or 0.
fn level_of(sign: Sign) -> u8
    ensures { result ≡ level_of sign }
{
    match sign {
        Sign::OrOr => 1,
        Sign::AndAnd => 2,
        Sign::Bar => 3,
        Sign::Caret => 4,
        Sign::Ampersand => 5,
        Sign::EqualEqual | Sign::NotEqual => 6,
        Sign::Less | Sign::Greater | Sign::LessEqual | Sign::GreaterEqual => 7,
        Sign::ShiftLeft | Sign::ShiftRight => 8,
        Sign::Plus | Sign::Minus => 9,
        Sign::Star | Sign::Slash | Sign::Percent => 10,
        _ => 0,
    }
}

/// The next token's sign where it is an operator of the level.
#[tactic(auto, unfolding(crate::specs::ExpressionParser::level_sign))]
pub(crate) fn level_sign(reader: &Reader<'_>, level: u8) -> Option<Sign>
    ensures { result ≡ level_sign level reader.now.rest }
{
    let sign = reader.sign()?;
    if level_of(sign) == level {
        Some(sign)
    } else {
        None
    }
}

/// The next token's sign where it is a postfix operator's. An index is one deeper.
#[tactic(auto, unfolding(crate::specs::ExpressionParser::postfix_sign))]
pub(crate) fn postfix_sign(reader: &Reader<'_>, depth: u32) -> Option<Sign>
    ensures { result ≡ postfix_sign depth reader.now.rest }
{
    match reader.sign() {
        Some(Sign::LeftBracket) => {
            if depth == 0 {
                None
            } else {
                Some(Sign::LeftBracket)
            }
        }
        Some(Sign::Dot) => Some(Sign::Dot),
        Some(Sign::Arrow) => Some(Sign::Arrow),
        Some(Sign::PlusPlus) => Some(Sign::PlusPlus),
        Some(Sign::MinusMinus) => Some(Sign::MinusMinus),
        _ => None,
    }
}

/// The prefix operator that the token is.
fn prefix_of(kind: &TokenKind) -> Option<PrefixOperator>
    ensures { result ≡ prefix_of kind.now }
{
    match kind {
        TokenKind::Word { word: Word::Sizeof } => Some(PrefixOperator::SizeOf),
        TokenKind::Punctuator { sign } => prefix_sign(*sign),
        _ => None,
    }
}

fn prefix_sign(sign: Sign) -> Option<PrefixOperator>
    ensures { result ≡ prefix_of (kind.Punctuator sign) }
{
    match sign {
        Sign::PlusPlus => Some(PrefixOperator::Increment),
        Sign::MinusMinus => Some(PrefixOperator::Decrement),
        Sign::Ampersand => Some(PrefixOperator::Address),
        Sign::Star => Some(PrefixOperator::Indirection),
        Sign::Plus => Some(PrefixOperator::Plus),
        Sign::Minus => Some(PrefixOperator::Minus),
        Sign::Tilde => Some(PrefixOperator::Complement),
        Sign::Exclamation => Some(PrefixOperator::Not),
        _ => None,
    }
}

/// The prefix operator that the next token is.
pub(crate) fn prefix_at(reader: &Reader<'_>) -> Option<PrefixOperator>
    ensures { result ≡ prefix_at reader.now.rest }
{
    match reader.next() {
        Some(kind) => prefix_of(kind),
        None => None,
    }
}

/// Whether the operator stands before a unary expression, and before no cast.
pub(crate) fn is_step(operator: PrefixOperator) -> bool
    ensures { result ≡ is_step operator }
{
    match operator {
        PrefixOperator::Increment | PrefixOperator::Decrement => true,
        _ => false,
    }
}

/// Whether `?` is next, and its operands may be one deeper.
pub(crate) fn chooses(reader: &Reader<'_>, depth: u32) -> bool
    ensures { result ≡ begins_choices depth reader.now.rest }
{
    if depth == 0 {
        return false;
    }
    reader.stands(Sign::Question)
}

fn is_assignment(sign: Sign) -> bool
    ensures { result ≡ is_assignment sign }
{
    matches!(
        sign,
        Sign::Equal
            | Sign::StarEqual
            | Sign::SlashEqual
            | Sign::PercentEqual
            | Sign::PlusEqual
            | Sign::MinusEqual
            | Sign::ShiftLeftEqual
            | Sign::ShiftRightEqual
            | Sign::AndEqual
            | Sign::XorEqual
            | Sign::OrEqual
    )
}

/// The rank of the rule that an expression is of, from the outermost in.
fn rank(x: &Expr) -> u32
    ensures { result ≡ expression_rank (plain_expr x.now) }
{
    match x {
        Expr::Comma { .. } => 0,
        Expr::Assign { .. } => 1,
        Expr::Conditional { .. } => 2,
        Expr::Chain { level, .. } => u32::from(*level) + 2,
        Expr::Cast { .. } => 13,
        Expr::Prefix { .. } | Expr::SizeOfType { .. } => 14,
        Expr::Postfix { .. } => 15,
        _ => 16,
    }
}

/// The next token's sign where it is one of an assignment to what was read: that can stand on the left, and the right side may
/// be one deeper.
#[tactic(auto, unfolding(crate::specs::ExpressionParser::assignment_sign))]
pub(crate) fn assignment_sign(reader: &Reader<'_>, depth: u32, target: &Expr) -> Option<Sign>
    ensures { result ≡ assignment_sign depth (plain_expr target.now) reader.now.rest }
{
    if depth == 0 {
        return None;
    }
    if rank(target) < 14 {
        return None;
    }
    let sign = reader.sign()?;
    if is_assignment(sign) {
        Some(sign)
    } else {
        None
    }
}
