ghost use Rattle.std.specs.Prelude.{◌≤◌, option_map};
ghost use Rattle.std.specs.Option.{IsSome};
ghost use Rattle.c_syntax.specs.StatementTree as s;
ghost use Rattle.c_syntax.specs.Plain.{plain_expr, plain_for_start, plain_statement, plain_second, plain_entry};
ghost use Rattle.c_parser_statements.specs.StatementViews.{plain_header, plain_inner, plain_entry_list, plain_block};
ghost use Rattle.c_parser_expressions.specs.Marks.{sign_mark};
ghost use Rattle.c_parser_expressions.specs.Reading.{first_kind};
ghost use Rattle.c_parser_expressions.specs.Steps.{Gives, all_of};
ghost use Rattle.c_parser_declarations.specs.Turns.{GivesStep};
ghost use Rattle.c_parser_statements.specs.StatementParser.{optional_by, condition_by, otherwise_by, if_by, while_by, until_by, do_by, for_start_by};
ghost use Rattle.c_parser_statements.specs.StatementParser.{header_by, for_by, return_by, jump_by, entry_by, entry_step, entries_by, block_by};
ghost use Rattle.c_parser_statements.specs.StatementParser.{expression_by, statement_at_depth, statements_below};

use c_parser_declarations::declaration;
use c_parser_expressions::{Reader, Stop, closed};
use c_syntax::{Entry, Expr, ForStart, Sign, Statement, TokenKind, Word};
use std::alloc::Global;

/// What stands in the parentheses of a `for`.
#[derive(Drop)]
pub(crate) struct ForHeader {
    pub(crate) start: ForStart,
    pub(crate) condition: Option<Expr>,
    pub(crate) step: Option<Expr>,
}

/// An expression or none, and the sign behind it.
#[tactic(auto, using(c_parser_expressions::proofs::Heads::stands_some), unfolding(crate::specs::StatementParser::optional_by))]
fn optional(
    alloc: Global,
    reader: &mut Reader<'_>,
    depth: u32,
    end: Sign,
) -> Result<Option<Expr>, Stop>
    requires { 1 ≤ sign_mark end }
    ensures { Gives (option_map plain_expr) result reader.new (optional_by depth end reader.old) }
{
    if reader.stands(end) {
        reader.pass();
        return Ok(None);
    }
    let expr = closed(alloc, reader, depth, end)?;
    Ok(Some(expr))
}

/// An expression in parentheses.
#[tactic(auto, unfolding(crate::specs::StatementParser::condition_by))]
fn condition(alloc: Global, reader: &mut Reader<'_>, depth: u32) -> Result<Expr, Stop>
    ensures { Gives plain_expr result reader.new (condition_by depth reader.old) }
{
    reader.expect(Sign::LeftParen)?;
    closed(alloc, reader, depth, Sign::RightParen)
}

/// What stands behind the body of a `do`.
#[tactic(auto, unfolding(crate::specs::StatementParser::until_by))]
fn until(alloc: Global, reader: &mut Reader<'_>, depth: u32) -> Result<Expr, Stop>
    ensures { Gives plain_expr result reader.new (until_by depth reader.old) }
{
    reader.expect_word(Word::While)?;
    let condition = condition(alloc, reader, depth)?;
    match reader.expect(Sign::Semicolon) {
        Ok(()) => Ok(condition),
        Err(stop) => {
            drop(condition);
            Err(stop)
        }
    }
}

/// What a `for` does first.
#[tactic(auto, unfolding(crate::specs::StatementParser::for_start_by))]
fn for_start(alloc: Global, reader: &mut Reader<'_>, depth: u32) -> Result<ForStart, Stop>
    requires { 1 ≤ depth }
    ensures { Gives plain_for_start result reader.new (for_start_by depth reader.old) }
{
    if reader.begins_type() {
        let declaration = declaration(alloc, reader, 0, depth - 1)?;
        return Ok(ForStart::Declares { declaration });
    }
    let expr = optional(alloc, reader, depth, Sign::Semicolon)?;
    Ok(ForStart::Computes { expr })
}

/// What stands in the parentheses of a `for`.
#[tactic(auto, unfolding(crate::specs::StatementParser::header_by))]
fn header(alloc: Global, reader: &mut Reader<'_>, depth: u32) -> Result<ForHeader, Stop>
    requires { 1 ≤ depth }
    ensures { Gives plain_header result reader.new (header_by depth reader.old) }
{
    reader.expect(Sign::LeftParen)?;
    let start = for_start(alloc, reader, depth)?;
    match optional(alloc, reader, depth, Sign::Semicolon) {
        Ok(condition) => match optional(alloc, reader, depth, Sign::RightParen) {
            Ok(step) => Ok(ForHeader {
                start,
                condition,
                step,
            }),
            Err(stop) => {
                drop((start, condition));
                Err(stop)
            }
        },
        Err(stop) => {
            drop(start);
            Err(stop)
        }
    }
}

/// An expression and its semicolon.
#[tactic(auto, using(c_syntax::proofs::PlainStatements::plain_expr_statement), unfolding(crate::specs::StatementParser::expression_by))]
fn expression_statement(
    alloc: Global,
    reader: &mut Reader<'_>,
    depth: u32,
) -> Result<Statement, Stop>
    ensures { Gives plain_statement result reader.new (expression_by depth reader.old) }
{
    let token = reader.at();
    let expr = closed(alloc, reader, depth, Sign::Semicolon)?;
    Ok(Statement::Expr { token, expr })
}

/// `return` with a value or without one.
#[tactic(auto, using(c_syntax::proofs::PlainStatements::plain_return), unfolding(crate::specs::StatementParser::return_by))]
fn return_statement(alloc: Global, reader: &mut Reader<'_>, depth: u32) -> Result<Statement, Stop>
    requires { IsSome (first_kind reader.old.rest) }
    ensures { Gives plain_statement result reader.new (return_by depth reader.old) }
{
    let token = reader.at();
    reader.pass();
    let value = optional(alloc, reader, depth, Sign::Semicolon)?;
    Ok(Statement::Return { token, value })
}

/// `break`.
#[tactic(auto, using(c_syntax::proofs::PlainStatements::plain_break), unfolding(crate::specs::StatementParser::jump_by))]
fn break_statement(reader: &mut Reader<'_>) -> Result<Statement, Stop>
    requires { IsSome (first_kind reader.old.rest) }
    ensures { Gives plain_statement result reader.new (jump_by s.Break reader.old) }
{
    let token = reader.at();
    reader.pass();
    reader.expect(Sign::Semicolon)?;
    Ok(Statement::Break { token })
}

/// `continue`.
#[tactic(auto, using(c_syntax::proofs::PlainStatements::plain_continue), unfolding(crate::specs::StatementParser::jump_by))]
fn continue_statement(reader: &mut Reader<'_>) -> Result<Statement, Stop>
    requires { IsSome (first_kind reader.old.rest) }
    ensures { Gives plain_statement result reader.new (jump_by s.Continue reader.old) }
{
    let token = reader.at();
    reader.pass();
    reader.expect(Sign::Semicolon)?;
    Ok(Statement::Continue { token })
}

/// A statement within another.
#[cycle(statement)]
fn inner(alloc: Global, reader: &mut Reader<'_>, depth: u32) -> Result<Box<Statement>, Stop>
    ensures { Gives plain_inner result reader.new (statement_at_depth depth reader.old) }
{
    let statement = statement(alloc, reader, depth)?;
    Ok(Box::new(alloc, statement)?)
}

/// The second branch of an `if`, where one begins.
#[cycle(statement)]
#[tactic(auto, using(c_parser_expressions::proofs::Heads::says_some), unfolding(crate::specs::StatementParser::otherwise_by))]
fn otherwise(
    alloc: Global,
    reader: &mut Reader<'_>,
    depth: u32,
) -> Result<Option<Box<Statement>>, Stop>
    ensures { Gives plain_second result reader.new (otherwise_by (statement_at_depth depth) reader.old) }
{
    if !reader.says(Word::Else) {
        return Ok(None);
    }
    reader.pass();
    let second = inner(alloc, reader, depth)?;
    Ok(Some(second))
}

/// `if`, with or without `else`.
#[cycle(statement)]
#[tactic(auto, using(crate::proofs::StatementViews::below_is, crate::proofs::StatementViews::plain_if_either), unfolding(crate::specs::StatementParser::if_by))]
fn if_statement(alloc: Global, reader: &mut Reader<'_>, depth: u32) -> Result<Statement, Stop>
    requires { IsSome (first_kind reader.old.rest) }
    ensures { Gives plain_statement result reader.new (if_by depth (statements_below depth) reader.old) }
{
    if depth == 0 {
        return Err(reader.refuse());
    }
    let token = reader.at();
    reader.pass();
    let condition = condition(alloc, reader, depth)?;
    match inner(alloc, reader, depth - 1) {
        Ok(first) => match otherwise(alloc, reader, depth - 1) {
            Ok(second) => Ok(Statement::If {
                token,
                condition,
                first,
                second,
            }),
            Err(stop) => {
                drop(condition);
                Err(stop)
            }
        },
        Err(stop) => {
            drop(condition);
            Err(stop)
        }
    }
}

/// `while`.
#[cycle(statement)]
#[tactic(auto, using(crate::proofs::StatementViews::below_is, c_syntax::proofs::PlainStatements::plain_while), unfolding(crate::specs::StatementParser::while_by))]
fn while_statement(alloc: Global, reader: &mut Reader<'_>, depth: u32) -> Result<Statement, Stop>
    requires { IsSome (first_kind reader.old.rest) }
    ensures { Gives plain_statement result reader.new (while_by depth (statements_below depth) reader.old) }
{
    if depth == 0 {
        return Err(reader.refuse());
    }
    let token = reader.at();
    reader.pass();
    let condition = condition(alloc, reader, depth)?;
    match inner(alloc, reader, depth - 1) {
        Ok(body) => Ok(Statement::While {
            token,
            condition,
            body,
        }),
        Err(stop) => {
            drop(condition);
            Err(stop)
        }
    }
}

/// `do`.
#[cycle(statement)]
#[tactic(auto, using(crate::proofs::StatementViews::below_is, c_syntax::proofs::PlainStatements::plain_do), unfolding(crate::specs::StatementParser::do_by))]
fn do_statement(alloc: Global, reader: &mut Reader<'_>, depth: u32) -> Result<Statement, Stop>
    requires { IsSome (first_kind reader.old.rest) }
    ensures { Gives plain_statement result reader.new (do_by depth (statements_below depth) reader.old) }
{
    if depth == 0 {
        return Err(reader.refuse());
    }
    let token = reader.at();
    reader.pass();
    let body = inner(alloc, reader, depth - 1)?;
    let condition = until(alloc, reader, depth)?;
    Ok(Statement::Do {
        token,
        body,
        condition,
    })
}

/// `for`.
#[cycle(statement)]
#[tactic(auto, using(crate::proofs::StatementViews::below_is, c_syntax::proofs::PlainStatements::plain_for), unfolding(crate::specs::StatementParser::for_by))]
fn for_statement(alloc: Global, reader: &mut Reader<'_>, depth: u32) -> Result<Statement, Stop>
    requires { IsSome (first_kind reader.old.rest) }
    ensures { Gives plain_statement result reader.new (for_by depth (statements_below depth) reader.old) }
{
    if depth == 0 {
        return Err(reader.refuse());
    }
    let token = reader.at();
    reader.pass();
    let header = header(alloc, reader, depth)?;
    match inner(alloc, reader, depth - 1) {
        Ok(body) => Ok(Statement::For {
            token,
            start: header.start,
            condition: header.condition,
            step: header.step,
            body,
        }),
        Err(stop) => {
            drop(header);
            Err(stop)
        }
    }
}

/// An entry, unless the block ends.
#[cycle(statement)]
#[tactic(auto, using(crate::proofs::StatementViews::below_is, c_syntax::proofs::PlainStatements::plain_declared, c_syntax::proofs::PlainStatements::plain_stated), unfolding(crate::specs::StatementParser::entry_step, crate::specs::StatementParser::entry_by))]
fn next_entry(alloc: Global, reader: &mut Reader<'_>, depth: u32) -> Result<Option<Entry>, Stop>
    ensures { GivesStep plain_entry result reader.old reader.new (entry_step depth (statements_below depth) reader.old) }
{
    if reader.stands(Sign::RightBrace) {
        return Ok(None);
    }
    if depth == 0 {
        return Err(reader.refuse());
    }
    if reader.begins_type() {
        let declaration = declaration(alloc, reader, 0, depth - 1)?;
        return Ok(Some(Entry::Declaration { declaration }));
    }
    let statement = statement(alloc, reader, depth - 1)?;
    Ok(Some(Entry::Statement { statement }))
}

/// Entries for as long as one begins.
#[cycle(statement)]
fn run(alloc: Global, reader: &mut Reader<'_>, depth: u32) -> Result<Vec<Entry>, Stop>
    ensures { Gives plain_entry_list result reader.new (all_of (entry_step depth (statements_below depth)) reader.old) }
{
    let mut entries = Vec::new(alloc);
    'entries: while let Some(entry) = next_entry(alloc, reader, depth)? {
        entries.push(entry)?;
    }
    Ok(entries)
}

/// Entries up to a brace. So much may lie in it.
#[cycle(statement)]
#[tactic(auto, unfolding(crate::specs::StatementParser::entries_by))]
pub fn entries(alloc: Global, reader: &mut Reader<'_>, depth: u32) -> Result<Vec<Entry>, Stop>
    ensures { Gives plain_block result reader.new (entries_by depth (statements_below depth) reader.old) }
{
    let entries = run(alloc, reader, depth)?;
    reader.expect(Sign::RightBrace)?;
    Ok(entries)
}

/// A block.
#[cycle(statement)]
#[tactic(auto, using(c_syntax::proofs::PlainStatements::plain_block), unfolding(crate::specs::StatementParser::block_by))]
fn block(alloc: Global, reader: &mut Reader<'_>, depth: u32) -> Result<Statement, Stop>
    requires { IsSome (first_kind reader.old.rest) }
    ensures { Gives plain_statement result reader.new (block_by depth (statements_below depth) reader.old) }
{
    let token = reader.at();
    reader.pass();
    let entries = entries(alloc, reader, depth)?;
    Ok(Statement::Block { token, entries })
}

/// A statement that may nest so deep.
#[cycle(statement)]
#[tactic(auto, using(crate::proofs::StatementViews::statements_is, c_syntax::proofs::PlainStatements::plain_empty), unfolding(crate::specs::StatementParser::statement_by))]
fn statement(alloc: Global, reader: &mut Reader<'_>, depth: u32) -> Result<Statement, Stop>
    ensures { Gives plain_statement result reader.new (statement_at_depth depth reader.old) }
{
    let token = reader.at();
    match reader.next() {
        Some(
            TokenKind::Punctuator {
                sign: Sign::LeftBrace,
            },
        ) => block(alloc, reader, depth),
        Some(
            TokenKind::Punctuator {
                sign: Sign::Semicolon,
            },
        ) => {
            reader.pass();
            Ok(Statement::Empty { token })
        }
        Some(TokenKind::Word { word: Word::If }) => if_statement(alloc, reader, depth),
        Some(TokenKind::Word { word: Word::While }) => while_statement(alloc, reader, depth),
        Some(TokenKind::Word { word: Word::Do }) => do_statement(alloc, reader, depth),
        Some(TokenKind::Word { word: Word::For }) => for_statement(alloc, reader, depth),
        Some(TokenKind::Word { word: Word::Return }) => return_statement(alloc, reader, depth),
        Some(TokenKind::Word { word: Word::Break }) => break_statement(reader),
        Some(
            TokenKind::Word {
                word: Word::Continue,
            },
        ) => continue_statement(reader),
        _ => expression_statement(alloc, reader, depth),
    }
}
