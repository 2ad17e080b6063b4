ghost use Rattle.std.specs.Prelude.{◌≡◌, ◌<◌, ◌++◌, ◌∷◌, decimal, map, All, OnOk};
ghost use Rattle.cbi_base.specs.Text.{line_with_newline, line_of_fields, text_of};
ghost use Rattle.flow.specs.Predicates.{predicate_count};
ghost use Rattle.affinity.specs.declared.neighbour.Neighbour.{Neighbour};
ghost use Rattle.affinity.specs.Text.{HasText, card_head, card_rows, near_fields, truth_fields};

use crate::dealing::Card;
use crate::neighbour::Neighbour;
use cbi_base::{Memory, push_decimal};
use flow::{SiteTable, predicate_name, predicate_site};
use std::alloc::Global;

// A space and a decimal.
fn push_number(out: &mut Vec<u8>, number: u64) -> Result<(), Memory>
    ensures { OnOk result (out.new.items ≡ out.old.items ++ 32 ∷ decimal number) }
{
    out.push(b' ')?;
    push_decimal(out, u128::from(number))
}

// A space and a word.
fn push_word(out: &mut Vec<u8>, word: &[u8]) -> Result<(), Memory>
    ensures { OnOk result (out.new.items ≡ out.old.items ++ 32 ∷ word.now) }
{
    out.push(b' ')?;
    out.extend_from_slice(word)?;
    Ok(())
}

// The line of a card's place and predicate.
fn push_head(
    alloc: Global,
    out: &mut Vec<u8>,
    table: &SiteTable,
    place: u64,
    predicate: u32,
) -> Result<(), Memory>
    requires { predicate < predicate_count table.now.sites }
    ensures { OnOk result (out.new.items ≡ out.old.items ++ line_with_newline (line_of_fields (card_head table.now place predicate))) }
{
    let functions = table.functions();
    let site = predicate_site(table, predicate).0;
    let text = predicate_name(alloc, table, predicate)?;
    out.extend_from_slice(b"card")?;
    push_number(out, place)?;
    push_number(out, u64::from(predicate))?;
    push_word(out, functions[site.function as usize].bytes())?;
    push_number(out, u64::from(site.line))?;
    push_word(out, text.as_slice())?;
    out.push(b'\n')?;
    Ok(())
}

// The line of its runs.
fn push_truth(out: &mut Vec<u8>, card: &Card) -> Result<(), Memory>
    ensures { OnOk result (out.new.items ≡ out.old.items ++ line_with_newline (line_of_fields (truth_fields card.now))) }
{
    out.extend_from_slice(b"truth")?;
    push_number(out, u64::from(card.failing))?;
    push_number(out, u64::from(card.successful))?;
    push_word(out, b"first")?;
    push_number(out, u64::from(card.first))?;
    out.push(b'\n')?;
    Ok(())
}

// The line of a predicate near it.
fn push_near(
    alloc: Global,
    out: &mut Vec<u8>,
    table: &SiteTable,
    near: Neighbour,
) -> Result<(), Memory>
    requires { near.predicate < predicate_count table.now.sites }
    ensures { OnOk result (out.new.items ≡ out.old.items ++ line_with_newline (line_of_fields (near_fields table.now near))) }
{
    let text = predicate_name(alloc, table, near.predicate)?;
    out.extend_from_slice(b"near")?;
    push_number(out, u64::from(near.predicate))?;
    push_number(out, near.fall)?;
    push_word(out, text.as_slice())?;
    out.push(b'\n')?;
    Ok(())
}

// The lines of all that are near it.
fn push_all_near(
    alloc: Global,
    out: &mut Vec<u8>,
    table: &SiteTable,
    near: &[Neighbour],
) -> Result<(), Memory>
    requires { All (λ (n : Neighbour). n.predicate < predicate_count table.now.sites) near.now }
    ensures { OnOk result (out.new.items ≡ out.old.items ++ text_of (map line_of_fields (map (near_fields table.now) near.now))) }
{
    for one in near {
        push_near(alloc, out, table, *one)?;
    }
    Ok(())
}

/// Writes the lines of a card behind a text.
pub fn push_card(
    alloc: Global,
    out: &mut Vec<u8>,
    table: &SiteTable,
    place: u64,
    card: &Card,
) -> Result<(), Memory>
    requires { HasText table.now card.now }
    ensures { OnOk result (out.new.items ≡ out.old.items ++ text_of (map line_of_fields (card_rows table.now place card.now))) }
{
    push_head(alloc, out, table, place, card.predicate)?;
    push_truth(out, card)?;
    push_all_near(alloc, out, table, card.near.as_slice())
}
