ghost use Rattle.std.specs.Prelude.{◌≡◌, IfOk};
ghost use Rattle.std.specs.Option.{option_map};
ghost use Rattle.program_lines.specs.SiteLines.{branch_of, slot_of, partner_of, branch_fields, return_fields, pair_fields, site_kind_of, site_of_row};
ghost use Rattle.program_lines.specs.SiteLines.{site_parts};

use crate::rows::name;
use cbi_base::{Fields, Memory, read_number, read_signed};
use flow::{BranchWord, Partner, Site, SiteKind, Slot};
use std::alloc::Global;

#[tactic(auto, unfolding(crate::specs::SiteLines::branch_of))]
fn branch_word(field: &[u8]) -> Option<BranchWord>
    ensures { result ≡ branch_of field.now }
{
    if field == b"if".as_slice() {
        return Some(BranchWord::If);
    }
    if field == b"while".as_slice() {
        return Some(BranchWord::While);
    }
    if field == b"do".as_slice() {
        return Some(BranchWord::Do);
    }
    if field == b"for".as_slice() {
        return Some(BranchWord::For);
    }
    if field == b"?:".as_slice() {
        return Some(BranchWord::Question);
    }
    if field == b"&&".as_slice() {
        return Some(BranchWord::AndAnd);
    }
    if field == b"||".as_slice() {
        return Some(BranchWord::OrOr);
    }
    None
}

#[tactic(auto, unfolding(crate::specs::SiteLines::slot_of))]
fn slot(field: &[u8]) -> Option<Slot>
    ensures { result ≡ slot_of field.now }
{
    let (letter, digits) = field.split_first()?;
    if *letter == b'l' {
        let index = read_number(digits)?;
        return Some(Slot::Local { index });
    }
    if *letter == b'g' {
        let index = read_number(digits)?;
        return Some(Slot::Global { index });
    }
    None
}

// The partner of a pair: a constant and `k`, or a name and its variable.
fn partner(alloc: Global, fields: &mut Fields<'_>) -> Result<Option<Partner>, Memory>
    ensures { IfOk result (λ partner. partner ≡ partner_of fields.old) }
{
    let Some(first) = fields.next() else {
        return Ok(None);
    };
    let Some(second) = fields.next() else {
        return Ok(None);
    };
    if !fields.is_empty() {
        return Ok(None);
    }
    if second == b"k".as_slice() {
        let Some(value) = read_signed(first) else {
            return Ok(None);
        };
        return Ok(Some(Partner::Constant { value }));
    }
    let Some(name) = name(alloc, first)? else {
        return Ok(None);
    };
    let Some(slot) = slot(second) else {
        return Ok(None);
    };
    Ok(Some(Partner::Variable { name, slot }))
}

fn branch(fields: &mut Fields<'_>) -> Option<SiteKind>
    ensures { result ≡ branch_fields fields.old }
{
    let field = fields.next()?;
    if !fields.is_empty() {
        return None;
    }
    let word = branch_word(field)?;
    Some(SiteKind::Branch { word })
}

fn returning(alloc: Global, fields: &mut Fields<'_>) -> Result<Option<SiteKind>, Memory>
    ensures { IfOk result (λ kind. kind ≡ return_fields fields.old) }
{
    let Some(field) = fields.next() else {
        return Ok(None);
    };
    if !fields.is_empty() {
        return Ok(None);
    }
    let Some(callee) = name(alloc, field)? else {
        return Ok(None);
    };
    Ok(Some(SiteKind::Return { callee }))
}

fn pair(alloc: Global, fields: &mut Fields<'_>) -> Result<Option<SiteKind>, Memory>
    ensures { IfOk result (λ kind. kind ≡ pair_fields fields.old) }
{
    let Some(first) = fields.next() else {
        return Ok(None);
    };
    let Some(second) = fields.next() else {
        return Ok(None);
    };
    let Some(target) = name(alloc, first)? else {
        return Ok(None);
    };
    let Some(slot) = slot(second) else {
        return Ok(None);
    };
    let Some(partner) = partner(alloc, fields)? else {
        return Ok(None);
    };
    Ok(Some(SiteKind::Pair {
        target,
        slot,
        partner,
    }))
}

fn site_kind(
    alloc: Global,
    word: &[u8],
    fields: &mut Fields<'_>,
) -> Result<Option<SiteKind>, Memory>
    ensures { IfOk result (λ kind. kind ≡ site_kind_of word.now fields.old) }
{
    if word == b"branch".as_slice() {
        return Ok(branch(fields));
    }
    if word == b"return".as_slice() {
        return returning(alloc, fields);
    }
    if word == b"pair".as_slice() {
        return pair(alloc, fields);
    }
    Ok(None)
}

// The word of the site's kind, and the numbers of its function, line and token.
#[tactic(auto, unfolding(crate::specs::SiteLines::site_parts))]
fn site_parts<'a>(fields: &mut Fields<'a>) -> Option<(&'a [u8], (u32, (u32, u32)))>
    ensures { option_map (λ s. ((s.0.now, s.1), fields.new)) result ≡ site_parts fields.old }
{
    let word = fields.next()?;
    let kind = fields.next()?;
    let function = fields.next()?;
    let line = fields.next()?;
    let token = fields.next()?;
    if word != b"site".as_slice() {
        return None;
    }
    let function = read_number(function)?;
    let line = read_number(line)?;
    let token = read_number(token)?;
    Some((kind, (function, (line, token))))
}

/// The site in a line.
#[tactic(auto, unfolding(crate::specs::SiteLines::site_of_row))]
pub fn read_site(alloc: Global, fields: &mut Fields<'_>) -> Result<Option<Site>, Memory>
    ensures { IfOk result (λ site. site ≡ site_of_row fields.old) }
{
    let Some((word, (function, (line, token)))) = site_parts(fields) else {
        return Ok(None);
    };
    let Some(kind) = site_kind(alloc, word, fields)? else {
        return Ok(None);
    };
    Ok(Some(Site {
        kind,
        function,
        line,
        token,
    }))
}
