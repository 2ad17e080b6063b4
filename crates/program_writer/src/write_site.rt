ghost use Rattle.std.specs.Prelude.{◌≡◌, ◌++◌, ◌∷◌, codes, decimal, map, OnOk};
ghost use Rattle.cbi_base.specs.Text.{line_with_newline, line_of_fields};
ghost use Rattle.flow.specs.Spelling.{branch_word, kind_fields, kind_name, partner_fields, site_fields, slot_word, whole_list};
ghost use Rattle.flow.specs.declared.site.Partner.TheVariants.{Constant};
ghost use Rattle.program_writer.specs.Written.{fields_behind, rows_text};

use crate::write_words::{push_count, push_field, push_number, push_signed};
use cbi_base::{Memory, push_decimal};
use flow::{BranchWord, Partner, Site, SiteKind, Slot};

// Appends where a variable lies.
fn push_slot(out: &mut Vec<u8>, slot: Slot) -> Result<(), Memory>
    ensures { OnOk result (out.new.items ≡ out.old.items ++ slot_word slot) }
{
    match slot {
        Slot::Local { index } => {
            out.push(b'l')?;
            push_decimal(out, u128::from(index))
        }
        Slot::Global { index } => {
            out.push(b'g')?;
            push_decimal(out, u128::from(index))
        }
    }
}

// Appends a name, and where its variable lies.
fn push_variable(out: &mut Vec<u8>, name: &[u8], slot: Slot) -> Result<(), Memory>
    ensures { OnOk result (out.new.items ≡ out.old.items ++ 32 ∷ (name.now ++ 32 ∷ slot_word slot)) }
{
    push_field(out, name)?;
    out.push(b' ')?;
    push_slot(out, slot)
}

// Appends a constant, and its letter.
fn push_constant(out: &mut Vec<u8>, value: i64) -> Result<(), Memory>
    ensures { OnOk result (out.new.items ≡ out.old.items ++ fields_behind (partner_fields (Constant value))) }
{
    out.push(b' ')?;
    push_signed(out, value)?;
    out.extend_from_slice(b" k")?;
    Ok(())
}

// Appends what a variable's value is compared with.
fn push_partner(out: &mut Vec<u8>, partner: &Partner) -> Result<(), Memory>
    ensures { OnOk result (out.new.items ≡ out.old.items ++ fields_behind (partner_fields partner.now)) }
{
    match partner {
        Partner::Variable { name, slot } => push_variable(out, name.bytes(), *slot),
        Partner::Constant { value } => push_constant(out, *value),
    }
}

fn branch_word(word: BranchWord) -> &'static [u8]
    ensures { result.now ≡ branch_word word }
{
    match word {
        BranchWord::If => b"if",
        BranchWord::While => b"while",
        BranchWord::Do => b"do",
        BranchWord::For => b"for",
        BranchWord::Question => b"?:",
        BranchWord::AndAnd => b"&&",
        BranchWord::OrOr => b"||",
    }
}

fn kind_name(kind: &SiteKind) -> &'static [u8]
    ensures { result.now ≡ kind_name kind.now }
{
    match kind {
        SiteKind::Branch { .. } => b"branch",
        SiteKind::Return { .. } => b"return",
        SiteKind::Pair { .. } => b"pair",
    }
}

// Appends what a site looks at.
fn push_kind(out: &mut Vec<u8>, kind: &SiteKind) -> Result<(), Memory>
    ensures { OnOk result (out.new.items ≡ out.old.items ++ fields_behind (kind_fields kind.now)) }
{
    match kind {
        SiteKind::Branch { word } => push_field(out, branch_word(*word)),
        SiteKind::Return { callee } => push_field(out, callee.bytes()),
        SiteKind::Pair {
            target,
            slot,
            partner,
        } => {
            push_variable(out, target.bytes(), *slot)?;
            push_partner(out, partner)
        }
    }
}

// Appends where a site stands.
fn push_place(out: &mut Vec<u8>, site: &Site) -> Result<(), Memory>
    ensures { OnOk result (out.new.items ≡ out.old.items ++ 32 ∷ (decimal site.now.function
        ++ 32 ∷ (decimal site.now.line ++ 32 ∷ decimal site.now.token))) }
{
    push_number(out, u64::from(site.function))?;
    push_number(out, u64::from(site.line))?;
    push_number(out, u64::from(site.token))
}

// Appends the line of a site.
fn push_site(out: &mut Vec<u8>, site: &Site) -> Result<(), Memory>
    ensures { OnOk result (out.new.items ≡ out.old.items ++ line_with_newline (line_of_fields (site_fields site.now))) }
{
    out.extend_from_slice(b"site ")?;
    out.extend_from_slice(kind_name(&site.kind))?;
    push_place(out, site)?;
    push_kind(out, &site.kind)?;
    out.push(b'\n')?;
    Ok(())
}

fn push_each_site(out: &mut Vec<u8>, sites: &[Site]) -> Result<(), Memory>
    ensures { OnOk result (out.new.items ≡ out.old.items ++ rows_text (map site_fields sites.now)) }
{
    let mut rest = sites;
    while let [site, after @ ..] = rest {
        push_site(out, site)?;
        rest = after;
    }
    Ok(())
}

/// Appends how many sites there are, and their lines.
pub fn push_sites(out: &mut Vec<u8>, sites: &[Site]) -> Result<(), Memory>
    ensures { OnOk result (out.new.items ≡ out.old.items ++ rows_text (whole_list (codes "sites") site_fields sites.now)) }
{
    push_count(out, b"sites", sites.len())?;
    push_each_site(out, sites)
}
