ghost use Rattle.std.specs.Prelude.{◌≡◌, ◌<◌, ◌≤◌, ◌++◌, ◌∷◌, decimal, map, IfOk, OnOk, Some};
ghost use Rattle.cbi_base.specs.Text.{line_with_newline, line_of_fields, text_of};
ghost use Rattle.flow.specs.Predicates.{predicate_count};
ghost use Rattle.fractions.specs.Tally.{IsTally, Passes};
ghost use Rattle.compound.specs.Text.{HasText, IsShown, best_fields, best_rows, count_fields, member_fields, pairs_text};

use crate::chosen::{Chosen, PairResult};
use cbi_base::{Memory, push_decimal};
use flow::{SiteTable, predicate_name, predicate_site};
use fractions::{importance, millionths};
use std::alloc::Global;

// A space and a decimal.
fn push_number(out: &mut Vec<u8>, number: u64) -> Result<(), Memory>
    ensures { OnOk result (out.new.items ≡ out.old.items ++ 32 ∷ decimal number) }
{
    out.push(b' ')?;
    push_decimal(out, u128::from(number))
}

// A space and a word.
fn push_word(out: &mut Vec<u8>, word: &[u8]) -> Result<(), Memory>
    ensures { OnOk result (out.new.items ≡ out.old.items ++ 32 ∷ word.now) }
{
    out.push(b' ')?;
    out.extend_from_slice(word)?;
    Ok(())
}

// The line of the numbers of pairs.
fn push_counts(out: &mut Vec<u8>, found: &PairResult) -> Result<(), Memory>
    ensures { OnOk result (out.new.items ≡ out.old.items ++ line_with_newline (line_of_fields (count_fields found.now))) }
{
    out.extend_from_slice(b"pairs")?;
    push_number(out, found.pairs)?;
    out.extend_from_slice(b" counted")?;
    push_number(out, found.counted)?;
    out.extend_from_slice(b" skipped")?;
    push_number(out, found.skipped)?;
    out.push(b'\n')?;
    Ok(())
}

// The line of the best pair.
fn push_best(out: &mut Vec<u8>, chosen: Chosen) -> Result<(), Memory>
    requires tally { IsTally chosen.tally }
    requires passes { Passes chosen.tally }
    requires observed { chosen.tally.c ≤ chosen.failing }
    requires failing { chosen.failing ≤ 100000 }
    ensures { OnOk result (out.new.items ≡ out.old.items ++ line_with_newline (line_of_fields (best_fields chosen))) }
{
    let share = millionths(importance(chosen.tally, chosen.failing));
    out.extend_from_slice(b"best")?;
    push_number(out, u64::from(chosen.left))?;
    push_number(out, u64::from(chosen.right))?;
    push_number(out, u64::from(chosen.tally.a))?;
    push_number(out, u64::from(chosen.tally.b))?;
    push_number(out, u64::from(chosen.tally.c))?;
    push_number(out, u64::from(chosen.tally.d))?;
    push_number(out, share)?;
    out.push(b'\n')?;
    Ok(())
}

// The line of one of its predicates.
fn push_member(
    alloc: Global,
    out: &mut Vec<u8>,
    word: &[u8],
    table: &SiteTable,
    predicate: u32,
) -> Result<(), Memory>
    requires { predicate < predicate_count table.now.sites }
    ensures { OnOk result (out.new.items ≡ out.old.items ++ line_with_newline (line_of_fields (member_fields table.now word.now predicate))) }
{
    let functions = table.functions();
    let site = predicate_site(table, predicate).0;
    let text = predicate_name(alloc, table, predicate)?;
    out.extend_from_slice(word)?;
    push_word(out, functions[site.function as usize].bytes())?;
    push_number(out, u64::from(site.line))?;
    push_word(out, text.as_slice())?;
    out.push(b'\n')?;
    Ok(())
}

// The lines of the best pair.
fn push_chosen(
    alloc: Global,
    out: &mut Vec<u8>,
    table: &SiteTable,
    chosen: Chosen,
) -> Result<(), Memory>
    requires { IsShown table.now chosen }
    ensures { OnOk result (out.new.items ≡ out.old.items ++ text_of (map line_of_fields (best_rows table.now (Some chosen)))) }
{
    push_best(out, chosen)?;
    push_member(alloc, out, b"left", table, chosen.left)?;
    push_member(alloc, out, b"right", table, chosen.right)
}

/// The text of what was found.
pub fn pairs_text(alloc: Global, found: &PairResult, table: &SiteTable) -> Result<Vec<u8>, Memory>
    requires { HasText table.now found.now }
    ensures { IfOk result (λ text. text.items ≡ pairs_text table.now found.now) }
{
    let mut out = Vec::new(alloc);
    push_counts(&mut out, found)?;
    match found.best {
        None => out.extend_from_slice(b"best none\n")?,
        Some(chosen) => push_chosen(alloc, &mut out, table, chosen)?,
    }
    Ok(out)
}
