ghost use Rattle.std.specs.Prelude.{◌≡◌, ◌↔◌, ◌≤◌, length, IsTrue};
ghost use Rattle.flow.specs.Words.{PartFits, site_limit};
ghost use Rattle.program_parts.specs.Part.{part_of};
ghost use Rattle.program_parts.specs.Program.{part_table};

use crate::part::has;
use cbi_base::Name;
use flow::{BranchWord, Part, Partner, Site, SiteKind, SiteTable, Slot};

fn same_slot(left: Slot, right: Slot) -> bool
    ensures { IsTrue result ↔ (left ≡ right) }
{
    left == right
}

fn same_word(left: BranchWord, right: BranchWord) -> bool
    ensures { IsTrue result ↔ (left ≡ right) }
{
    left == right
}

fn same_partner(left: &Partner, right: &Partner) -> bool
    ensures { IsTrue result ↔ (left.now ≡ right.now) }
{
    match left {
        Partner::Variable { name, slot } => match right {
            Partner::Variable {
                name: other,
                slot: place,
            } => { same_slot(*slot, *place) && name.same(other) }
            Partner::Constant { .. } => false,
        },
        Partner::Constant { value } => match right {
            Partner::Constant { value: other } => *value == *other,
            Partner::Variable { .. } => false,
        },
    }
}

fn same_kind(left: &SiteKind, right: &SiteKind) -> bool
    ensures { IsTrue result ↔ (left.now ≡ right.now) }
{
    match left {
        SiteKind::Branch { word } => match right {
            SiteKind::Branch { word: other } => same_word(*word, *other),
            SiteKind::Return { .. } | SiteKind::Pair { .. } => false,
        },
        SiteKind::Return { callee } => match right {
            SiteKind::Return { callee: other } => callee.same(other),
            SiteKind::Branch { .. } | SiteKind::Pair { .. } => false,
        },
        SiteKind::Pair {
            target,
            slot,
            partner,
        } => match right {
            SiteKind::Pair {
                target: name,
                slot: place,
                partner: other,
            } => same_slot(*slot, *place) && target.same(name) && same_partner(partner, other),
            SiteKind::Branch { .. } | SiteKind::Return { .. } => false,
        },
    }
}

/// Whether two sites are the same.
fn same_site(left: &Site, right: &Site) -> bool
    ensures { IsTrue result ↔ (left.now ≡ right.now) }
{
    if left.function != right.function || left.line != right.line {
        return false;
    }
    left.token == right.token && same_kind(&left.kind, &right.kind)
}

/// Whether two lists have the same names.
fn same_names(left: &[Name], right: &[Name]) -> bool
    ensures { IsTrue result ↔ (left.now ≡ right.now) }
{
    let mut left = left;
    let mut right = right;
    while let [first, more @ ..] = left {
        let [other, others @ ..] = right else {
            return false;
        };
        if !first.same(other) {
            return false;
        }
        left = more;
        right = others;
    }
    right.is_empty()
}

/// Whether the second list has exactly the part's sites of the first.
fn are_kept(whole: &[Site], cut: &[Site], part: Part) -> bool
    requires part { PartFits part }
    requires few { length whole.now ≤ site_limit }
    ensures { IsTrue result ↔ (cut.now ≡ part_of part whole.now) }
{
    let mut number = 0u32;
    let mut rest = whole;
    let mut left = cut;
    while let [site, after @ ..] = rest {
        if has(part, number) {
            let [first, more @ ..] = left else {
                return false;
            };
            if !same_site(first, site) {
                return false;
            }
            left = more;
        }
        number += 1;
        rest = after;
    }
    left.is_empty()
}

/// Whether a table is exactly this part of another one.
pub fn is_part(whole: &SiteTable, cut: &SiteTable, part: Part) -> bool
    requires { PartFits part }
    ensures { IsTrue result ↔ (cut.now ≡ part_table part whole.now) }
{
    same_names(whole.functions(), cut.functions()) && are_kept(whole.sites(), cut.sites(), part)
}
