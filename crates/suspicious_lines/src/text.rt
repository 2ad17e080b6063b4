ghost use Rattle.std.specs.Prelude.{◌≡◌, ◌<◌, ◌++◌, ◌∷◌, codes, decimal, length, slice_index_or, [], IfOk, OnOk};
ghost use Rattle.cbi_base.specs.Text.{line_with_newline, line_of_fields};
ghost use Rattle.flow.specs.Predicates.{predicate_text};
ghost use Rattle.association.specs.Order.{IsOfRuns};
ghost use Rattle.suspicious_lines.specs.Text.{AreShown, IsShown, lines_head, line_fields, suspicious_text, number_fields, place_fields, strength_field};

use crate::totals::Totals;
use association::{Suspect, strength_in_millionths, table_of};
use cbi_base::{Memory, push_decimal};
use flow::{SiteTable, predicate_name};
use fractions::Tally;
use std::alloc::Global;

/// A space and a decimal.
pub fn push_number(out: &mut Vec<u8>, number: u64) -> Result<(), Memory>
    ensures { OnOk result (out.new.items ≡ out.old.items ++ 32 ∷ decimal number) }
{
    out.push(b' ')?;
    push_decimal(out, u128::from(number))
}

/// A space and a word.
pub fn push_word(out: &mut Vec<u8>, word: &[u8]) -> Result<(), Memory>
    ensures { OnOk result (out.new.items ≡ out.old.items ++ 32 ∷ word.now) }
{
    out.push(b' ')?;
    out.extend_from_slice(word)?;
    Ok(())
}

/// The function and the line of a suspect.
pub fn push_place(out: &mut Vec<u8>, table: &SiteTable, suspect: &Suspect) -> Result<(), Memory>
    requires { suspect.now.function < length table.now.functions }
    ensures { OnOk result (out.new.items ≡ out.old.items
        ++ 32 ∷ slice_index_or table.now.functions suspect.now.function [] ++ 32 ∷ decimal suspect.now.line) }
{
    let functions = table.functions();
    push_word(out, functions[suspect.function as usize].bytes())?;
    push_number(out, u64::from(suspect.line))
}

/// Its four numbers.
pub fn push_tally(out: &mut Vec<u8>, tally: Tally) -> Result<(), Memory>
    ensures { OnOk result (out.new.items ≡ out.old.items
        ++ 32 ∷ decimal tally.a ++ 32 ∷ decimal tally.b ++ 32 ∷ decimal tally.c ++ 32 ∷ decimal tally.d) }
{
    push_number(out, u64::from(tally.a))?;
    push_number(out, u64::from(tally.b))?;
    push_number(out, u64::from(tally.c))?;
    push_number(out, u64::from(tally.d))
}

/// Its strength.
pub fn push_strength(out: &mut Vec<u8>, totals: Totals, suspect: &Suspect) -> Result<(), Memory>
    requires { IsOfRuns totals.failing totals.successful suspect.now }
    ensures { OnOk result (out.new.items ≡ out.old.items ++ 32 ∷ strength_field totals.failing totals.successful suspect.now) }
{
    let table = table_of(totals.failing, totals.successful, suspect);
    let strength = strength_in_millionths(table);
    push_number(out, strength)
}

// The first line.
fn push_head(out: &mut Vec<u8>, totals: Totals, places: u64) -> Result<(), Memory>
    ensures { OnOk result (out.new.items ≡ out.old.items ++ line_with_newline (line_of_fields (lines_head totals.failing totals.successful places))) }
{
    out.extend_from_slice(b"lines")?;
    push_number(out, u64::from(totals.failing))?;
    push_number(out, u64::from(totals.successful))?;
    push_number(out, places)?;
    out.push(b'\n')?;
    Ok(())
}

// The line of a suspect up to where it stands.
fn push_front(
    out: &mut Vec<u8>,
    table: &SiteTable,
    number: u64,
    suspect: &Suspect,
) -> Result<(), Memory>
    requires { suspect.now.function < length table.now.functions }
    ensures { OnOk result (out.new.items ≡ out.old.items
        ++ line_of_fields (codes "line" ∷ decimal number ∷ decimal suspect.now.predicate ∷ place_fields table.now suspect.now)) }
{
    let functions = table.functions();
    out.extend_from_slice(b"line")?;
    push_number(out, number)?;
    push_number(out, u64::from(suspect.predicate))?;
    push_word(out, functions[suspect.function as usize].bytes())?;
    push_number(out, u64::from(suspect.line))
}

// What is left of it.
fn push_back(
    alloc: Global,
    out: &mut Vec<u8>,
    table: &SiteTable,
    totals: Totals,
    suspect: &Suspect,
) -> Result<(), Memory>
    requires { IsShown table.now totals.failing totals.successful suspect.now }
    ensures { OnOk result (out.new.items ≡ out.old.items ++ 32 ∷ line_with_newline (line_of_fields (number_fields suspect.now
        ++ strength_field totals.failing totals.successful suspect.now ∷ predicate_text table.now.sites suspect.now.predicate ∷ []))) }
{
    let text = predicate_name(alloc, table, suspect.predicate)?;
    push_number(out, u64::from(suspect.tally.a))?;
    push_number(out, u64::from(suspect.tally.b))?;
    push_number(out, u64::from(suspect.tally.c))?;
    push_number(out, u64::from(suspect.tally.d))?;
    push_strength(out, totals, suspect)?;
    push_word(out, text.as_slice())?;
    out.push(b'\n')?;
    Ok(())
}

// The line of a suspect.
fn push_line(
    alloc: Global,
    out: &mut Vec<u8>,
    table: &SiteTable,
    totals: Totals,
    number: u64,
    suspect: &Suspect,
) -> Result<(), Memory>
    requires { IsShown table.now totals.failing totals.successful suspect.now }
    ensures { OnOk result (out.new.items ≡ out.old.items
        ++ line_with_newline (line_of_fields (line_fields table.now totals.failing totals.successful number suspect.now))) }
{
    push_front(out, table, number, suspect)?;
    push_back(alloc, out, table, totals, suspect)?;
    Ok(())
}

/// The text of these suspects in their order, the first with number 1, of so many places.
pub fn suspicious_text(
    alloc: Global,
    table: &SiteTable,
    totals: Totals,
    places: u64,
    rows: &[Suspect],
) -> Result<Vec<u8>, Memory>
    requires { AreShown table.now totals.failing totals.successful rows.now }
    ensures { IfOk result (λ text. text.items ≡ suspicious_text table.now totals.failing totals.successful places rows.now) }
{
    let mut out = Vec::new(alloc);
    push_head(&mut out, totals, places)?;
    let mut number = 1u64;
    for row in rows {
        push_line(alloc, &mut out, table, totals, number, row)?;
        number += 1;
    }
    out.extend_from_slice(b"end\n")?;
    Ok(out)
}
