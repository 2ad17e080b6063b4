ghost use Rattle.std.specs.Prelude.{◌≡◌, ◌++◌, OnOk, map, option_map};
ghost use Rattle.c_syntax.specs.Plain.{plain_declaration, plain_entries, plain_expr, plain_for_start, plain_initial, plain_start, plain_statement};
ghost use Rattle.sites.specs.Bodies.{declaration_spots, entries_spots, for_spots, for_start_spots, initial_spots, start_spots, starts_spots, statement_spots};
ghost use Rattle.sites.specs.Standing.{StandAtTokens};

use crate::spots::{Spot, push_branch, push_change, push_expr, push_exprs, push_part};
use c_syntax::{Declaration, Entry, Expr, ForStart, Initial, Start, Statement};
use cbi_base::{Memory, Seq};
use flow::BranchWord;

/// Adds what the initialiser of a variable holds. The name stands at the token, and `=` behind it.
fn push_initial(
    spots: &mut Seq<Spot>,
    name_token: u32,
    initial: &Option<Initial>,
) -> Result<(), Memory>
    requires { StandAtTokens (initial_spots name_token (option_map plain_initial initial.now)) }
    ensures { OnOk result (spots.new ≡ spots.old ++ initial_spots name_token (option_map plain_initial initial.now)) }
{
    match initial {
        None => Ok(()),
        Some(Initial::Value { value }) => {
            push_change(spots, name_token + 1, Some(name_token))?;
            push_expr(spots, value)
        }
        Some(Initial::Braced { items, .. }) => push_exprs(spots, items.as_slice()),
    }
}

/// Adds what a declared variable holds.
fn push_start(spots: &mut Seq<Spot>, start: &Start) -> Result<(), Memory>
    requires { StandAtTokens (start_spots (plain_start start.now)) }
    ensures { OnOk result (spots.new ≡ spots.old ++ start_spots (plain_start start.now)) }
{
    push_initial(spots, start.declarator.name_token, &start.initial)
}

/// Adds what several declared variables hold.
fn push_starts(spots: &mut Seq<Spot>, starts: &[Start]) -> Result<(), Memory>
    requires { StandAtTokens (starts_spots (map plain_start starts.now)) }
    ensures { OnOk result (spots.new ≡ spots.old ++ starts_spots (map plain_start starts.now)) }
{
    for start in starts {
        push_start(spots, start)?;
    }
    Ok(())
}

/// Adds what a declaration of locals holds.
fn push_declaration(spots: &mut Seq<Spot>, declaration: &Declaration) -> Result<(), Memory>
    requires { StandAtTokens (declaration_spots (plain_declaration declaration.now)) }
    ensures { OnOk result (spots.new ≡ spots.old ++ declaration_spots (plain_declaration declaration.now)) }
{
    push_starts(spots, declaration.starts.as_slice())
}

/// Adds what a `for` does first.
fn push_for_start(spots: &mut Seq<Spot>, start: &ForStart) -> Result<(), Memory>
    requires { StandAtTokens (for_start_spots (plain_for_start start.now)) }
    ensures { OnOk result (spots.new ≡ spots.old ++ for_start_spots (plain_for_start start.now)) }
{
    match start {
        ForStart::Declares { declaration } => push_declaration(spots, declaration),
        ForStart::Computes { expr } => push_part(spots, expr),
    }
}

/// Adds what a `for` itself is: a branch, where it has a condition.
fn push_for(spots: &mut Seq<Spot>, token: u32, condition: &Option<Expr>) -> Result<(), Memory>
    ensures { OnOk result (spots.new ≡ spots.old ++ for_spots token (option_map plain_expr condition.now)) }
{
    if condition.is_none() {
        return Ok(());
    }
    push_branch(spots, token, BranchWord::For)
}

/// Adds what a statement holds.
#[cycle(push_statement)]
pub fn push_statement(spots: &mut Seq<Spot>, statement: &Statement) -> Result<(), Memory>
    requires { StandAtTokens (statement_spots (plain_statement statement.now)) }
    ensures { OnOk result (spots.new ≡ spots.old ++ statement_spots (plain_statement statement.now)) }
{
    match statement {
        Statement::Block { entries, .. } => push_entries(spots, entries.as_slice()),
        Statement::Expr { expr, .. } => push_expr(spots, expr),
        Statement::If {
            token,
            condition,
            first,
            second,
        } => {
            push_branch(spots, *token, BranchWord::If)?;
            push_expr(spots, condition)?;
            push_statement(spots, first)?;
            match second {
                None => Ok(()),
                Some(second) => push_statement(spots, second),
            }
        }
        Statement::While {
            token,
            condition,
            body,
        } => {
            push_branch(spots, *token, BranchWord::While)?;
            push_expr(spots, condition)?;
            push_statement(spots, body)
        }
        Statement::Do {
            token,
            body,
            condition,
        } => {
            push_branch(spots, *token, BranchWord::Do)?;
            push_statement(spots, body)?;
            push_expr(spots, condition)
        }
        Statement::For {
            token,
            start,
            condition,
            step,
            body,
        } => {
            push_for(spots, *token, condition)?;
            push_for_start(spots, start)?;
            push_part(spots, condition)?;
            push_part(spots, step)?;
            push_statement(spots, body)
        }
        Statement::Return { value, .. } => push_part(spots, value),
        Statement::Empty { .. } | Statement::Break { .. } => Ok(()),
        Statement::Continue { .. } => Ok(()),
    }
}

/// Adds what the entries of a block or of a body hold.
#[cycle(push_statement)]
pub fn push_entries(spots: &mut Seq<Spot>, entries: &[Entry]) -> Result<(), Memory>
    requires { StandAtTokens (entries_spots (plain_entries entries.now)) }
    ensures { OnOk result (spots.new ≡ spots.old ++ entries_spots (plain_entries entries.now)) }
{
    for entry in entries {
        match entry {
            Entry::Declaration { declaration } => push_declaration(spots, declaration)?,
            Entry::Statement { statement } => push_statement(spots, statement)?,
        }
    }
    Ok(())
}
