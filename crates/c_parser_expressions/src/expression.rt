ghost use Rattle.std.specs.Prelude.{◌≡◌, ◌≤◌, ◌-◌, ◌+◌, Some, true};
ghost use Rattle.c_syntax.specs.Words.{plain_expr, plain_postfix};
ghost use Rattle.c_syntax.specs.declared.expr.PrefixOperator.TheVariants as prefix;
ghost use Rattle.c_syntax.specs.declared.token.Sign.TheVariants as sign_variant;
ghost use Rattle.c_parser_expressions.specs.Reading.{sign_at};
ghost use Rattle.c_parser_expressions.specs.Marks.{sign_mark};
ghost use Rattle.c_parser_expressions.specs.Steps.{Gives, all_of};
ghost use Rattle.c_parser_expressions.specs.ExpressionParser.{deeper_than, closed_by, paren_by, more_by, arguments_by, named_by, primary_by};
ghost use Rattle.c_parser_expressions.specs.ExpressionParser.{operator_by, postfix_step, postfix_by, size_of_by, prefix_by, operand_by, unary_by};
ghost use Rattle.c_parser_expressions.specs.ExpressionParser.{casting_by, cast_by, link_step, chain_by, conditional_by, assignment_by, whole_by};
ghost use Rattle.c_parser_expressions.specs.ExpressionParser.{opens_type, prefix_at, postfix_sign};
ghost use Rattle.c_parser_expressions.specs.Views.{plain_items, plain_operator_list, plain_link_list};

use crate::cursor::Reader;
use crate::signs::{assignment_sign, chooses, is_step, level_sign, postfix_sign, prefix_at};
use crate::stop::Stop;
use crate::strings::strings;
use crate::types::closed_type;
use c_syntax::{Expr, Link, PostfixOperator, PrefixOperator, Sign, TokenKind, Word};
use std::alloc::Global;

/// An expression. It may nest so deep.
#[cycle(expression)]
#[tactic(auto, using(c_syntax::proofs::PlainExprs::plain_comma), unfolding(crate::specs::ExpressionParser::whole_by, crate::specs::ExpressionParser::listed_by, crate::specs::ExpressionParser::commas_by))]
fn whole(alloc: Global, reader: &mut Reader<'_>, depth: u32) -> Result<Expr, Stop>
    ensures { Gives plain_expr result reader.new (whole_by depth (deeper_than depth) reader.old) }
{
    let first = assigned(alloc, reader, depth)?;
    if !reader.stands(Sign::Comma) {
        return Ok(first);
    }
    let token = reader.at();
    let operands = more(alloc, reader, depth, first)?;
    Ok(Expr::Comma { token, operands })
}

/// Expressions with commas between them, of which the first is read.
#[cycle(expression)]
#[tactic(auto, using(crate::proofs::Heads::stands_some))]
fn more(alloc: Global, reader: &mut Reader<'_>, depth: u32, first: Expr) -> Result<Vec<Expr>, Stop>
    ensures { Gives plain_items result reader.new (more_by (assignment_by depth (deeper_than depth)) (plain_expr first) reader.old) }
{
    let mut items = Vec::new(alloc);
    items.push(first)?;
    'items: while reader.stands(Sign::Comma) {
        reader.pass();
        let item = assigned(alloc, reader, depth)?;
        items.push(item)?;
    }
    Ok(items)
}

/// An expression and the sign behind it.
#[cycle(expression)]
#[tactic(auto, unfolding(crate::specs::ExpressionParser::closed_by))]
pub fn closed(alloc: Global, reader: &mut Reader<'_>, depth: u32, sign: Sign) -> Result<Expr, Stop>
    requires { 1 ≤ sign_mark sign }
    ensures { Gives plain_expr result reader.new (closed_by (whole_by depth (deeper_than depth)) sign reader.old) }
{
    let inner = whole(alloc, reader, depth)?;
    match reader.expect(sign) {
        Ok(()) => Ok(inner),
        Err(stop) => {
            drop(inner);
            Err(stop)
        }
    }
}

/// An expression that is no comma expression.
#[cycle(expression)]
#[tactic(auto, using(c_syntax::proofs::PlainExprs::plain_assign, crate::proofs::Depths::deeper_assignment, crate::proofs::Depths::assigns_deep, crate::proofs::Depths::assigns_first), unfolding(crate::specs::ExpressionParser::assignment_by, crate::specs::ExpressionParser::assigned_by, crate::specs::ExpressionParser::assigning_by))]
pub fn assigned(alloc: Global, reader: &mut Reader<'_>, depth: u32) -> Result<Expr, Stop>
    ensures { Gives plain_expr result reader.new (assignment_by depth (deeper_than depth) reader.old) }
{
    let target = conditional(alloc, reader, depth)?;
    match assignment_sign(reader, depth, &target) {
        None => Ok(target),
        Some(sign) => {
            let target = Box::new(alloc, target)?;
            let token = reader.at();
            reader.pass();
            let value = assigned(alloc, reader, depth - 1)?;
            Ok(Expr::Assign {
                token,
                sign,
                target,
                value: Box::new(alloc, value)?,
            })
        }
    }
}

/// A chain of operators, or a choice by one.
#[cycle(expression)]
#[tactic(auto, using(c_syntax::proofs::PlainExprs::plain_conditional, crate::proofs::Depths::deeper_whole, crate::proofs::Depths::deeper_conditional, crate::proofs::Depths::chooses_deep, crate::proofs::Depths::chooses_first), unfolding(crate::specs::ExpressionParser::conditional_by, crate::specs::ExpressionParser::chosen_by, crate::specs::ExpressionParser::choosing_by, crate::specs::ExpressionParser::choices_by))]
fn conditional(alloc: Global, reader: &mut Reader<'_>, depth: u32) -> Result<Expr, Stop>
    ensures { Gives plain_expr result reader.new (conditional_by depth (deeper_than depth) reader.old) }
{
    let condition = chain(alloc, reader, depth, 1)?;
    if !chooses(reader, depth) {
        return Ok(condition);
    }
    let condition = Box::new(alloc, condition)?;
    let token = reader.at();
    reader.pass();
    let first = closed(alloc, reader, depth - 1, Sign::Colon)?;
    let first = Box::new(alloc, first)?;
    let second = conditional(alloc, reader, depth - 1)?;
    Ok(Expr::Conditional {
        token,
        condition,
        first,
        second: Box::new(alloc, second)?,
    })
}

/// A chain of the level, or an operand of it.
#[cycle(expression)]
#[tactic(auto, using(c_syntax::proofs::PlainExprs::plain_chain, crate::proofs::Depths::chain_end, crate::proofs::Depths::chain_more), unfolding(crate::specs::ExpressionParser::level_by, crate::specs::ExpressionParser::linked_by, crate::specs::ExpressionParser::links_by))]
fn chain(alloc: Global, reader: &mut Reader<'_>, depth: u32, level: u8) -> Result<Expr, Stop>
    requires low { 1 ≤ level }
    requires high { level ≤ 11 }
    ensures { Gives plain_expr result reader.new (chain_by (11 - level) (cast_by depth (deeper_than depth)) reader.old) }
{
    if level == 11 {
        return cast(alloc, reader, depth);
    }
    let first = chain(alloc, reader, depth, level + 1)?;
    match level_sign(reader, level) {
        None => Ok(first),
        Some(_) => {
            let first = Box::new(alloc, first)?;
            let links = links(alloc, reader, depth, level)?;
            Ok(Expr::Chain {
                level,
                first,
                links,
            })
        }
    }
}

/// Operators of the level, each with its operand.
#[cycle(expression)]
#[tactic(auto, using(crate::proofs::Depths::level_first))]
fn links(alloc: Global, reader: &mut Reader<'_>, depth: u32, level: u8) -> Result<Vec<Link>, Stop>
    requires low { 1 ≤ level }
    requires high { level ≤ 10 }
    ensures { Gives plain_link_list result reader.new (all_of (link_step (chain_by (11 - (level + 1)) (cast_by depth (deeper_than depth))) level) reader.old) }
{
    let mut links = Vec::new(alloc);
    'links: while let Some(sign) = level_sign(reader, level) {
        let token = reader.at();
        reader.pass();
        let operand = chain(alloc, reader, depth, level + 1)?;
        links.push(Link {
            token,
            sign,
            operand,
        })?;
    }
    Ok(links)
}

/// A cast, or a unary expression.
#[cycle(expression)]
#[tactic(auto, unfolding(crate::specs::ExpressionParser::cast_by))]
fn cast(alloc: Global, reader: &mut Reader<'_>, depth: u32) -> Result<Expr, Stop>
    ensures { Gives plain_expr result reader.new (cast_by depth (deeper_than depth) reader.old) }
{
    if !reader.opens_type() {
        return unary(alloc, reader, depth);
    }
    if depth == 0 {
        return Err(reader.refuse());
    }
    casting(alloc, reader, depth)
}

/// A cast. Its operand is one deeper.
#[cycle(expression)]
#[tactic(auto, using(c_syntax::proofs::PlainExprs::plain_cast, crate::proofs::Depths::deeper_cast, crate::proofs::Depths::opens_first), unfolding(crate::specs::ExpressionParser::casting_by))]
fn casting(alloc: Global, reader: &mut Reader<'_>, depth: u32) -> Result<Expr, Stop>
    requires opens { opens_type reader.old.rest ≡ true }
    requires deep { 1 ≤ depth }
    ensures { Gives plain_expr result reader.new (casting_by depth (deeper_than depth) reader.old) }
{
    let token = reader.at();
    reader.pass();
    let (base, stars) = closed_type(reader, depth)?;
    let operand = cast(alloc, reader, depth - 1)?;
    Ok(Expr::Cast {
        token,
        base,
        stars,
        operand: Box::new(alloc, operand)?,
    })
}

/// An operator before its operand, or a postfix expression.
#[cycle(expression)]
#[tactic(auto, using(c_syntax::proofs::PlainExprs::plain_prefix, crate::proofs::Depths::prefix_first), unfolding(crate::specs::ExpressionParser::unary_by, crate::specs::ExpressionParser::prefix_by))]
fn unary(alloc: Global, reader: &mut Reader<'_>, depth: u32) -> Result<Expr, Stop>
    ensures { Gives plain_expr result reader.new (unary_by depth (deeper_than depth) reader.old) }
{
    match prefix_at(reader) {
        None => postfix(alloc, reader, depth),
        Some(PrefixOperator::SizeOf) => size_of(alloc, reader, depth),
        Some(operator) => prefixed(alloc, reader, depth, operator),
    }
}

/// An operator before its operand.
#[cycle(expression)]
#[tactic(auto, using(c_syntax::proofs::PlainExprs::plain_prefix, crate::proofs::Depths::prefix_first), unfolding(crate::specs::ExpressionParser::prefix_by))]
fn prefixed(
    alloc: Global,
    reader: &mut Reader<'_>,
    depth: u32,
    operator: PrefixOperator,
) -> Result<Expr, Stop>
    requires { prefix_at reader.old.rest ≡ Some operator }
    ensures { Gives plain_expr result reader.new (prefix_by depth operator (operand_by (deeper_than depth) operator) reader.old) }
{
    if depth == 0 {
        return Err(reader.refuse());
    }
    let token = reader.at();
    reader.pass();
    let operand = operand(alloc, reader, depth, operator)?;
    Ok(Expr::Prefix {
        token,
        operator,
        operand: Box::new(alloc, operand)?,
    })
}

/// What the operator stands before, one deeper.
#[cycle(expression)]
#[tactic(auto, using(crate::proofs::Depths::deeper_unary, crate::proofs::Depths::deeper_cast, crate::proofs::Depths::operand_unary, crate::proofs::Depths::operand_cast))]
fn operand(
    alloc: Global,
    reader: &mut Reader<'_>,
    depth: u32,
    operator: PrefixOperator,
) -> Result<Expr, Stop>
    requires { 1 ≤ depth }
    ensures { Gives plain_expr result reader.new (operand_by (deeper_than depth) operator reader.old) }
{
    if is_step(operator) {
        return unary(alloc, reader, depth - 1);
    }
    cast(alloc, reader, depth - 1)
}

/// `sizeof` of a type or of an expression. One in parentheses lies two deeper, a type doesn't.
#[cycle(expression)]
#[tactic(auto, using(c_syntax::proofs::PlainExprs::plain_prefix, c_syntax::proofs::PlainExprs::plain_size_of_type, crate::proofs::Depths::deeper_unary, crate::proofs::Depths::flat_unary, crate::proofs::Depths::opens_first, crate::proofs::Depths::prefix_first, crate::proofs::Heads::stands_some), unfolding(crate::specs::ExpressionParser::size_of_by, crate::specs::ExpressionParser::size_of_paren, crate::specs::ExpressionParser::size_of_operand, crate::specs::ExpressionParser::size_of_type))]
fn size_of(alloc: Global, reader: &mut Reader<'_>, depth: u32) -> Result<Expr, Stop>
    requires { prefix_at reader.old.rest ≡ Some prefix.SizeOf }
    ensures { Gives plain_expr result reader.new (size_of_by depth (deeper_than depth) reader.old) }
{
    let token = reader.at();
    reader.pass();
    if reader.opens_type() {
        reader.pass();
        let (base, stars) = closed_type(reader, depth)?;
        return Ok(Expr::SizeOfType { token, base, stars });
    }
    if reader.stands(Sign::LeftParen) {
        if depth < 2 {
            reader.pass();
            return Err(reader.refuse());
        }
    }
    if depth == 0 {
        return Err(reader.refuse());
    }
    let operand = unary(alloc, reader, depth - 1)?;
    Ok(Expr::Prefix {
        token,
        operator: PrefixOperator::SizeOf,
        operand: Box::new(alloc, operand)?,
    })
}

/// An operand with what follows it.
#[cycle(expression)]
#[tactic(auto, using(c_syntax::proofs::PlainExprs::plain_with_postfix), unfolding(crate::specs::ExpressionParser::postfix_by, crate::specs::ExpressionParser::operated_by, crate::specs::ExpressionParser::operators_by))]
fn postfix(alloc: Global, reader: &mut Reader<'_>, depth: u32) -> Result<Expr, Stop>
    ensures { Gives plain_expr result reader.new (postfix_by depth (deeper_than depth) reader.old) }
{
    let primary = primary(alloc, reader, depth)?;
    match postfix_sign(reader, depth) {
        None => Ok(primary),
        Some(_) => {
            let primary = Box::new(alloc, primary)?;
            let operators = operators(alloc, reader, depth)?;
            Ok(Expr::Postfix { primary, operators })
        }
    }
}

/// Operators behind their operand.
#[cycle(expression)]
fn operators(
    alloc: Global,
    reader: &mut Reader<'_>,
    depth: u32,
) -> Result<Vec<PostfixOperator>, Stop>
    ensures { Gives plain_operator_list result reader.new (all_of (postfix_step depth (deeper_than depth)) reader.old) }
{
    let mut operators = Vec::new(alloc);
    'operators: while let Some(sign) = postfix_sign(reader, depth) {
        let operator = operator(alloc, reader, depth, sign)?;
        operators.push(operator)?;
    }
    Ok(operators)
}

/// An operator behind its operand, which has this sign.
#[cycle(expression)]
#[tactic(auto, using(c_syntax::proofs::PlainExprs::plain_index, c_syntax::proofs::PlainExprs::plain_member, c_syntax::proofs::PlainExprs::plain_arrow, c_syntax::proofs::PlainExprs::plain_increment, c_syntax::proofs::PlainExprs::plain_decrement, crate::proofs::Depths::deeper_whole, crate::proofs::Depths::postfix_first, crate::proofs::Depths::index_deep), unfolding(crate::specs::ExpressionParser::operator_by, crate::specs::ExpressionParser::index_by, crate::specs::ExpressionParser::member_by))]
fn operator(
    alloc: Global,
    reader: &mut Reader<'_>,
    depth: u32,
    sign: Sign,
) -> Result<PostfixOperator, Stop>
    requires { postfix_sign depth reader.old.rest ≡ Some sign }
    ensures { Gives plain_postfix result reader.new (operator_by (deeper_than depth) sign reader.old) }
{
    let token = reader.at();
    reader.pass();
    match sign {
        Sign::LeftBracket => {
            let index = closed(alloc, reader, depth - 1, Sign::RightBracket)?;
            Ok(PostfixOperator::Index { token, index })
        }
        Sign::Dot => {
            let name = reader.name()?;
            Ok(PostfixOperator::Member { token, name })
        }
        Sign::Arrow => {
            let name = reader.name()?;
            Ok(PostfixOperator::Arrow { token, name })
        }
        Sign::PlusPlus => Ok(PostfixOperator::Increment { token }),
        _ => Ok(PostfixOperator::Decrement { token }),
    }
}

/// An expression that no operator joins.
#[cycle(expression)]
#[tactic(auto, using(c_syntax::proofs::PlainExprs::plain_null, c_syntax::proofs::PlainExprs::plain_end_of_file, c_syntax::proofs::PlainExprs::plain_constant), unfolding(crate::specs::ExpressionParser::primary_by))]
fn primary(alloc: Global, reader: &mut Reader<'_>, depth: u32) -> Result<Expr, Stop>
    ensures { Gives plain_expr result reader.new (primary_by depth (deeper_than depth) reader.old) }
{
    let token = reader.at();
    match reader.next() {
        Some(TokenKind::Word { word: Word::Null }) => {
            reader.pass();
            Ok(Expr::Null { token })
        }
        Some(
            TokenKind::Word {
                word: Word::EndOfFile,
            },
        ) => {
            reader.pass();
            Ok(Expr::EndOfFile { token })
        }
        Some(TokenKind::Name { .. }) => named(alloc, reader, depth),
        Some(TokenKind::Constant { kind, value }) => {
            reader.pass();
            Ok(Expr::Constant {
                token,
                kind: *kind,
                value: *value,
            })
        }
        Some(TokenKind::Text { .. }) => strings(alloc, reader),
        Some(
            TokenKind::Punctuator {
                sign: Sign::LeftParen,
            },
        ) => paren(alloc, reader, depth),
        _ => Err(reader.refuse()),
    }
}

/// A name, or a call where a parenthesis follows it.
#[cycle(expression)]
#[tactic(auto, using(c_syntax::proofs::PlainExprs::plain_name, c_syntax::proofs::PlainExprs::plain_call, crate::proofs::Heads::stands_some), unfolding(crate::specs::ExpressionParser::named_by, crate::specs::ExpressionParser::named_at, crate::specs::ExpressionParser::call_by))]
fn named(alloc: Global, reader: &mut Reader<'_>, depth: u32) -> Result<Expr, Stop>
    ensures { Gives plain_expr result reader.new (named_by (deeper_than depth) reader.old) }
{
    let token = reader.at();
    let name = reader.name()?;
    if !reader.stands(Sign::LeftParen) {
        return Ok(Expr::Name { token, name });
    }
    reader.pass();
    let arguments = arguments(alloc, reader, depth)?;
    Ok(Expr::Call {
        token,
        name,
        arguments,
    })
}

/// A call's arguments, behind its parenthesis. Each is one deeper.
#[cycle(expression)]
#[tactic(auto, using(crate::proofs::Depths::deeper_assignment, crate::proofs::Depths::flat_assignment, crate::proofs::Heads::stands_some), unfolding(crate::specs::ExpressionParser::arguments_by, crate::specs::ExpressionParser::closed_list, crate::specs::ExpressionParser::list_by))]
fn arguments(alloc: Global, reader: &mut Reader<'_>, depth: u32) -> Result<Vec<Expr>, Stop>
    ensures { Gives plain_items result reader.new (arguments_by (deeper_than depth) reader.old) }
{
    if reader.stands(Sign::RightParen) {
        reader.pass();
        return Ok(Vec::new(alloc));
    }
    if depth == 0 {
        return Err(reader.refuse());
    }
    let first = assigned(alloc, reader, depth - 1)?;
    let arguments = more(alloc, reader, depth - 1, first)?;
    reader.expect(Sign::RightParen)?;
    Ok(arguments)
}

/// An expression in parentheses.
#[cycle(expression)]
#[tactic(auto, using(c_syntax::proofs::PlainExprs::plain_paren, crate::proofs::Depths::deeper_whole), unfolding(crate::specs::ExpressionParser::paren_by))]
fn paren(alloc: Global, reader: &mut Reader<'_>, depth: u32) -> Result<Expr, Stop>
    requires { sign_at reader.old.rest ≡ Some sign_variant.LeftParen }
    ensures { Gives plain_expr result reader.new (paren_by depth (deeper_than depth) reader.old) }
{
    if depth == 0 {
        return Err(reader.refuse());
    }
    let token = reader.at();
    reader.pass();
    let inner = closed(alloc, reader, depth - 1, Sign::RightParen)?;
    Ok(Expr::Paren {
        token,
        inner: Box::new(alloc, inner)?,
    })
}
