//! The sites of an accepted text.
use c_types::Checked;
use cases_rows::Page;
use flow::{Partner, Schemes, Site, SiteKind, SiteTable, Slot, predicate_count};
use sites::{SiteError, site_table};

/// The schemes with these first letters.
pub(crate) fn schemes_of(letters: &str) -> Schemes {
    Schemes {
        branches: letters.contains('b'),
        returns: letters.contains('r'),
        pairs: letters.contains('p'),
    }
}

/// The table of a text, or why it has none.
fn table_of(known: &Checked, schemes: &str, out: &mut Page) -> Option<SiteTable> {
    match site_table(out.alloc(), known, schemes_of(schemes)) {
        Ok(table) => Some(table),
        Err(SiteError::Memory) => {
            out.want();
            None
        }
        Err(SiteError::TooManySites) => {
            out.say("too many");
            None
        }
    }
}

fn push_slot(slot: Slot, out: &mut Page) {
    let (mark, index) = match slot {
        Slot::Local { index } => (" l", index),
        Slot::Global { index } => (" g", index),
    };
    out.say(mark);
    out.number(index);
}

fn push_partner(partner: &Partner, out: &mut Page) {
    out.say(" ");
    match partner {
        Partner::Variable { name, slot } => {
            out.put(name.bytes());
            push_slot(*slot, out);
        }
        Partner::Constant { value } => out.debug(*value),
    }
}

fn push_kind(kind: &SiteKind, out: &mut Page) {
    match kind {
        SiteKind::Branch { word } => out.debug(*word),
        SiteKind::Return { callee } => out.put(callee.bytes()),
        SiteKind::Pair {
            target,
            slot,
            partner,
        } => {
            out.put(target.bytes());
            push_slot(*slot, out);
            push_partner(partner, out);
        }
    }
}

fn push_site(site: &Site, out: &mut Page) {
    if !out.is_empty() {
        out.say("; ");
    }
    for number in [site.function, site.line, site.token] {
        out.number(number);
        out.say(" ");
    }
    push_kind(&site.kind, out);
}

/// Adds the sites of a text.
pub(crate) fn push_sites(known: &Checked, schemes: &str, out: &mut Page) {
    if let Some(table) = table_of(known, schemes, out) {
        for site in table.sites() {
            push_site(site, out);
        }
    }
}

/// Adds how many sites, predicates and functions a text has.
pub(crate) fn push_numbers(known: &Checked, schemes: &str, out: &mut Page) {
    if let Some(table) = table_of(known, schemes, out) {
        out.debug(table.sites().len());
        out.say(" ");
        out.number(predicate_count(&table));
        out.say(" ");
        out.debug(table.functions().len());
    }
}
