ghost use Rattle.std.specs.Prelude.{◌≡◌, ◌<◌, ◌++◌, ◌∷◌, [], codes, decimal, length, map, All, IfOk, OnOk};
ghost use Rattle.cbi_base.specs.Text.{line_of_fields, line_with_newline, text_of};
ghost use Rattle.flow.specs.Predicates.{predicate_text};
ghost use Rattle.suspicious_lines.specs.Text.{IsShown, number_fields, place_fields, strength_field};
ghost use Rattle.bug_rounds.specs.declared.bug.Bug.{Bug};
ghost use Rattle.bug_rounds.specs.Text.{IsBugShown, also_fields, bug_rows, bugs_head, bugs_text, rest_fields};

use crate::bug::Bug;
use crate::search::Found;
use association::Suspect;
use cbi_base::Memory;
use flow::{SiteTable, predicate_name};
use std::alloc::Global;
use suspicious_lines::{Totals, push_number, push_place, push_strength, push_tally, push_word};

// The first line.
fn push_head(out: &mut Vec<u8>, totals: Totals) -> Result<(), Memory>
    ensures { OnOk result (out.new.items ≡ out.old.items ++ line_with_newline (line_of_fields (bugs_head totals.failing totals.successful))) }
{
    out.extend_from_slice(b"bugs")?;
    push_number(out, u64::from(totals.failing))?;
    push_number(out, u64::from(totals.successful))?;
    out.push(b'\n')?;
    Ok(())
}

// The line of a bug up to where it stands.
fn push_front(
    out: &mut Vec<u8>,
    table: &SiteTable,
    number: u64,
    leader: &Suspect,
) -> Result<(), Memory>
    requires { leader.now.function < length table.now.functions }
    ensures { OnOk result (out.new.items ≡ out.old.items
        ++ line_of_fields (codes "bug" ∷ decimal number ∷ decimal leader.now.predicate ∷ place_fields table.now leader.now)) }
{
    out.extend_from_slice(b"bug")?;
    push_number(out, number)?;
    push_number(out, u64::from(leader.predicate))?;
    push_place(out, table, leader)
}

// What is left of it.
fn push_back(
    alloc: Global,
    out: &mut Vec<u8>,
    table: &SiteTable,
    totals: Totals,
    leader: &Suspect,
    first: u32,
) -> Result<(), Memory>
    requires { IsShown table.now totals.failing totals.successful leader.now }
    ensures { OnOk result (out.new.items ≡ out.old.items ++ 32 ∷ line_with_newline (line_of_fields (number_fields leader.now
        ++ strength_field totals.failing totals.successful leader.now ∷ codes "first" ∷ decimal first
        ∷ predicate_text table.now.sites leader.now.predicate ∷ []))) }
{
    let text = predicate_name(alloc, table, leader.predicate)?;
    push_tally(out, leader.tally)?;
    push_strength(out, totals, leader)?;
    push_word(out, b"first")?;
    push_number(out, u64::from(first))?;
    push_word(out, text.as_slice())?;
    out.push(b'\n')?;
    Ok(())
}

// The line of another place of a round.
fn push_also(
    alloc: Global,
    out: &mut Vec<u8>,
    table: &SiteTable,
    totals: Totals,
    suspect: &Suspect,
) -> Result<(), Memory>
    requires { IsShown table.now totals.failing totals.successful suspect.now }
    ensures { OnOk result (out.new.items ≡ out.old.items
        ++ line_with_newline (line_of_fields (also_fields table.now totals.failing totals.successful suspect.now))) }
{
    let text = predicate_name(alloc, table, suspect.predicate)?;
    out.extend_from_slice(b"also")?;
    push_place(out, table, suspect)?;
    push_number(out, u64::from(suspect.tally.a))?;
    push_number(out, u64::from(suspect.tally.b))?;
    push_strength(out, totals, suspect)?;
    push_word(out, text.as_slice())?;
    out.push(b'\n')?;
    Ok(())
}

// The lines of these other places.
fn push_others(
    alloc: Global,
    out: &mut Vec<u8>,
    table: &SiteTable,
    totals: Totals,
    others: &[Suspect],
) -> Result<(), Memory>
    requires { All (IsShown table.now totals.failing totals.successful) others.now }
    ensures { OnOk result (out.new.items ≡ out.old.items
        ++ text_of (map line_of_fields (map (also_fields table.now totals.failing totals.successful) others.now))) }
{
    for suspect in others {
        push_also(alloc, out, table, totals, suspect)?;
    }
    Ok(())
}

// The lines of a bug.
fn push_bug(
    alloc: Global,
    out: &mut Vec<u8>,
    table: &SiteTable,
    successful: u32,
    number: u64,
    bug: &Bug,
) -> Result<(), Memory>
    requires { IsBugShown table.now successful bug.now }
    ensures { OnOk result (out.new.items ≡ out.old.items ++ text_of (map line_of_fields (bug_rows table.now successful number bug.now))) }
{
    let totals = Totals {
        failing: bug.failing,
        successful,
    };
    push_front(out, table, number, &bug.leader)?;
    push_back(alloc, out, table, totals, &bug.leader, bug.first)?;
    push_others(alloc, out, table, totals, bug.others.as_slice())?;
    Ok(())
}

// The last lines.
fn push_end(out: &mut Vec<u8>, rest: u32) -> Result<(), Memory>
    ensures { OnOk result (out.new.items ≡ out.old.items
        ++ text_of (map line_of_fields (rest_fields rest ∷ (codes "end" ∷ []) ∷ []))) }
{
    out.extend_from_slice(b"rest")?;
    push_number(out, u64::from(rest))?;
    out.extend_from_slice(b"\nend\n")?;
    Ok(())
}

/// The text of these bugs in their order, the first with number 1.
pub fn bugs_text(
    alloc: Global,
    table: &SiteTable,
    totals: Totals,
    found: &Found,
) -> Result<Vec<u8>, Memory>
    requires { All (IsBugShown table.now totals.successful) found.now.bugs }
    ensures { IfOk result (λ text. text.items ≡ bugs_text table.now totals.failing totals.successful found.now.rest found.now.bugs) }
{
    let mut out = Vec::new(alloc);
    push_head(&mut out, totals)?;
    let mut number = 1u64;
    for bug in found.bugs.as_slice() {
        push_bug(alloc, &mut out, table, totals.successful, number, bug)?;
        number += 1;
    }
    push_end(&mut out, found.rest)?;
    Ok(out)
}
