ghost use Rattle.std.specs.Prelude.{◌≡◌, ◌+◌, ◌<◌, ◌≤◌, ◌++◌, [], ◌∷◌, filter, IfOk, OnOk};
ghost use Rattle.flow.specs.Predicates.{predicate_count, predicates_of};
ghost use Rattle.elimination_tallies.specs.Predicates.{predicates_in};
ghost use Rattle.elimination_tallies.specs.Scanning.{tally_at};
ghost use Rattle.suspicious_lines.specs.Suspects.{is_true_in_failing, scheme_of, suspect_at, suspects_at, suspects_from};

use association::{Scheme, Suspect};
use cbi_base::Memory;
use elimination_tallies::Numbers;
use flow::{Site, SiteKind, SiteTable};
use std::alloc::Global;

// The scheme of a site.
fn scheme_of(kind: &SiteKind) -> Scheme
    ensures { result ≡ scheme_of kind.now }
{
    match kind {
        SiteKind::Branch { .. } => Scheme::Branches,
        SiteKind::Return { .. } => Scheme::Returns,
        SiteKind::Pair { .. } => Scheme::Pairs,
    }
}

// How many predicates a site has.
fn predicates_of(kind: &SiteKind) -> u32
    ensures value { result ≡ predicates_of kind.now }
    ensures few { result ≤ 6 }
{
    match kind {
        SiteKind::Branch { .. } => 2,
        SiteKind::Return { .. } | SiteKind::Pair { .. } => 6,
    }
}

// A predicate of a site with its numbers.
fn suspect_at(numbers: &Numbers, site: &Site, predicate: u32) -> Suspect
    requires { predicate < predicates_in numbers.now.branches }
    ensures { result ≡ suspect_at (tally_at numbers.now.tallies) site.now predicate }
{
    Suspect {
        predicate,
        scheme: scheme_of(&site.kind),
        function: site.function,
        line: site.line,
        tally: numbers.tally(predicate),
    }
}

// Adds a predicate that is true in a failing run.
fn offer(out: &mut Vec<Suspect>, next: Suspect) -> Result<(), Memory>
    ensures { OnOk result (out.new.items ≡ out.old.items ++ filter is_true_in_failing (next ∷ [])) }
{
    if next.tally.a > 0 {
        out.push(next)?;
    }
    Ok(())
}

// Adds the suspects among the predicates of a site, of which the first has this number.
fn push_suspects(
    out: &mut Vec<Suspect>,
    numbers: &Numbers,
    site: &Site,
    first: u32,
) -> Result<(), Memory>
    requires { first + predicates_of site.now.kind ≤ predicates_in numbers.now.branches }
    ensures { OnOk result (out.new.items ≡ out.old.items ++ suspects_at (tally_at numbers.now.tallies) first site.now) }
{
    let _count = numbers.predicates();
    for number in 0..predicates_of(&site.kind) {
        let next = suspect_at(numbers, site, first + number);
        offer(out, next)?;
    }
    Ok(())
}

/// The suspects by the numbers of the predicates of a table.
pub fn suspects_by(
    alloc: Global,
    numbers: &Numbers,
    table: &SiteTable,
) -> Result<Vec<Suspect>, Memory>
    requires { predicates_in numbers.now.branches ≡ predicate_count table.now.sites }
    ensures { IfOk result (λ suspects. suspects.items ≡ suspects_from (tally_at numbers.now.tallies) 0 table.now.sites) }
{
    let _count = numbers.predicates();
    let mut out = Vec::new(alloc);
    let mut first = 0u32;
    for site in table.sites() {
        push_suspects(&mut out, numbers, site, first)?;
        first += predicates_of(&site.kind);
    }
    Ok(out)
}
