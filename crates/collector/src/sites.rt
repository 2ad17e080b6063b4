ghost use Rattle.std.specs.Prelude.{◌≡◌, IfOk};
ghost use Rattle.collector.specs.Sites.{branches_of, has_site, is_branch, first_bad};

use cbi_base::{Memory, Seq};
use flow::{Site, SiteKind};
use report_file::Entry;
use std::alloc::Global;

fn is_branch(site: &Site) -> bool
    ensures { result ≡ is_branch site.now }
{
    match site.kind {
        SiteKind::Branch { .. } => true,
        SiteKind::Return { .. } | SiteKind::Pair { .. } => false,
    }
}

/// Which of the sites are branches.
pub fn branches_of(alloc: Global, sites: &[Site]) -> Result<Seq<bool>, Memory>
    ensures { IfOk result (λ branches. branches ≡ branches_of sites.now) }
{
    let mut branches = Seq::new(alloc);
    let mut rest = sites;
    while let [site, after @ ..] = rest {
        branches.push(is_branch(site))?;
        rest = after;
    }
    Ok(branches)
}

// Whether the entry's site is one of these, and has no third counter at a branch.
fn has_site(branches: &[bool], entry: Entry) -> bool
    ensures { result ≡ has_site branches.now entry }
{
    match branches.get(entry.site as usize) {
        None => false,
        Some(branch) => !*branch || entry.counts.third == 0,
    }
}

/// The first site in the entries that isn't one of these, or has a third counter at a branch.
pub fn first_bad(branches: &[bool], entries: &[Entry]) -> Option<u32>
    ensures { result ≡ first_bad branches.now entries.now }
{
    let mut rest = entries;
    while let [entry, after @ ..] = rest {
        if !has_site(branches, *entry) {
            return Some(entry.site);
        }
        rest = after;
    }
    None
}
