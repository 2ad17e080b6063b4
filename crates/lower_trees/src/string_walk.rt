ghost use Rattle.std.specs.Prelude.{◌≡◌, ◌++◌, map, OnOk, option_map};
ghost use Rattle.c_syntax.specs.Plain.{plain_declaration, plain_entries, plain_for_start, plain_item, plain_start, plain_statement};
ghost use Rattle.c_meaning.specs.Literals.{strings_begun, strings_declared, strings_entered, strings_of_body, strings_of_item, strings_stated};
ghost use Rattle.lower_trees.specs.Joined.{strings_of_items, strings_of_starts};

use crate::strings::{StringAt, strings_if, strings_in, strings_initial};
use c_syntax::{Declaration, Entry, ForStart, Item, Start, Statement};
use cbi_base::{Memory, Seq};
use std::alloc::Global;

/// Adds the strings of several declared variables.
fn strings_of_starts(
    alloc: Global,
    strings: &mut Seq<StringAt>,
    starts: &[Start],
) -> Result<(), Memory>
    ensures { OnOk result (strings.new ≡ strings.old ++ strings_of_starts (map plain_start starts.now)) }
{
    for start in starts {
        strings_initial(alloc, strings, &start.initial)?;
    }
    Ok(())
}

/// Adds the strings of a declaration.
fn strings_declared(
    alloc: Global,
    strings: &mut Seq<StringAt>,
    declaration: &Declaration,
) -> Result<(), Memory>
    ensures { OnOk result (strings.new ≡ strings.old ++ strings_declared (plain_declaration declaration.now)) }
{
    strings_of_starts(alloc, strings, declaration.starts.as_slice())
}

/// Adds the strings of what a `for` does first.
fn strings_begun(alloc: Global, strings: &mut Seq<StringAt>, start: &ForStart) -> Result<(), Memory>
    ensures { OnOk result (strings.new ≡ strings.old ++ strings_begun (plain_for_start start.now)) }
{
    match start {
        ForStart::Declares { declaration } => strings_declared(alloc, strings, declaration),
        ForStart::Computes { expr } => strings_if(alloc, strings, expr),
    }
}

/// Adds the strings of a statement.
#[cycle(strings_stated)]
fn strings_stated(
    alloc: Global,
    strings: &mut Seq<StringAt>,
    statement: &Statement,
) -> Result<(), Memory>
    ensures { OnOk result (strings.new ≡ strings.old ++ strings_stated (plain_statement statement.now)) }
{
    match statement {
        Statement::Block { entries, .. } => strings_entered(alloc, strings, entries.as_slice()),
        Statement::Expr { expr, .. } => strings_in(alloc, strings, expr),
        Statement::If {
            condition,
            first,
            second,
            ..
        } => {
            strings_in(alloc, strings, condition)?;
            strings_stated(alloc, strings, first)?;
            match second {
                None => Ok(()),
                Some(second) => strings_stated(alloc, strings, second),
            }
        }
        Statement::While {
            condition,
            body,
            ..
        } => {
            strings_in(alloc, strings, condition)?;
            strings_stated(alloc, strings, body)
        }
        Statement::Do {
            body,
            condition,
            ..
        } => {
            strings_stated(alloc, strings, body)?;
            strings_in(alloc, strings, condition)
        }
        Statement::For {
            start,
            condition,
            step,
            body,
            ..
        } => {
            strings_begun(alloc, strings, start)?;
            strings_if(alloc, strings, condition)?;
            strings_if(alloc, strings, step)?;
            strings_stated(alloc, strings, body)
        }
        Statement::Return { value, .. } => strings_if(alloc, strings, value),
        Statement::Empty { .. } | Statement::Break { .. } | Statement::Continue { .. } => Ok(()),
    }
}

/// Adds the strings of several entries.
#[cycle(strings_stated)]
fn strings_entered(
    alloc: Global,
    strings: &mut Seq<StringAt>,
    entries: &[Entry],
) -> Result<(), Memory>
    ensures { OnOk result (strings.new ≡ strings.old ++ strings_entered (plain_entries entries.now)) }
{
    for entry in entries {
        match entry {
            Entry::Declaration { declaration } => strings_declared(alloc, strings, declaration)?,
            Entry::Statement { statement } => strings_stated(alloc, strings, statement)?,
        }
    }
    Ok(())
}

/// Adds the strings of a function's body.
fn strings_of_body(
    alloc: Global,
    strings: &mut Seq<StringAt>,
    body: &Option<Seq<Entry>>,
) -> Result<(), Memory>
    ensures { OnOk result (strings.new ≡ strings.old ++ strings_of_body (option_map plain_entries body.now)) }
{
    match body {
        None => Ok(()),
        Some(entries) => strings_entered(alloc, strings, entries.as_slice()),
    }
}

/// Adds the strings of an item.
fn strings_of_item(alloc: Global, strings: &mut Seq<StringAt>, item: &Item) -> Result<(), Memory>
    ensures { OnOk result (strings.new ≡ strings.old ++ strings_of_item (plain_item item.now)) }
{
    match item {
        Item::Struct { .. } => Ok(()),
        Item::Function { body, .. } => strings_of_body(alloc, strings, body),
        Item::Declaration { declaration } => strings_declared(alloc, strings, declaration),
    }
}

/// Adds the strings of several items.
pub(crate) fn strings_of_items(
    alloc: Global,
    strings: &mut Seq<StringAt>,
    items: &[Item],
) -> Result<(), Memory>
    ensures { OnOk result (strings.new ≡ strings.old ++ strings_of_items (map plain_item items.now)) }
{
    for item in items {
        strings_of_item(alloc, strings, item)?;
    }
    Ok(())
}
