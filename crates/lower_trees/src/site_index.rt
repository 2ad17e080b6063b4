ghost use Rattle.std.specs.Prelude.{◌≡◌, ℕ, ◌==◌, ◌&&◌, ◌∷◌, ◌++◌, [], if◌then◌else◌, length, ◌≤◌, IfOk, OnOk};
ghost use Rattle.flow.specs.Limits.{site_limit};
ghost use Rattle.c_meaning.specs.Texts.{is_branch, is_pair, is_return, sites_from};
ghost use Rattle.lower_trees.specs.Places.{all_at};
ghost use Rattle.lower_trees.specs.Looks.{is_of};

use crate::places::add;
use cbi_base::{Memory, Seq};
use flow::{Site, SiteKind};
use std::alloc::Global;

/// What a site looks at.
#[derive(Clone, Copy)]
pub(crate) enum Looks {
    Branch,
    Return,
    Pair,
}

/// Whether a site of the kind looks at this.
fn is_of(looks: Looks, kind: &SiteKind) -> bool
    ensures { result ≡ is_of looks kind.now }
{
    match (looks, kind) {
        (Looks::Branch, SiteKind::Branch { .. }) => true,
        (Looks::Return, SiteKind::Return { .. }) => true,
        (Looks::Pair, SiteKind::Pair { .. }) => true,
        _ => false,
    }
}

/// One more number at a token, where it is to be there.
fn add_if(
    alloc: Global,
    lists: &mut Vec<Seq<u32>>,
    holds: bool,
    token: u32,
    number: u32,
) -> Result<(), Memory>
    ensures { OnOk result ((other : ℕ) → all_at lists.new.items other
        ≡ (if token == other && holds then all_at lists.old.items other ++ number ∷ [] else all_at lists.old.items other)) }
{
    if !holds {
        return Ok(());
    }
    add(alloc, lists, token, number)?;
    Ok(())
}

/// The numbers of the sites that look at this, by token.
fn sites_by_token(alloc: Global, looks: Looks, sites: &[Site]) -> Result<Vec<Seq<u32>>, Memory>
    requires { length sites.now ≤ site_limit }
    ensures { IfOk result (λ lists. (token : ℕ) → all_at lists.items token ≡ sites_from 0 (is_of looks) token sites.now) }
{
    let mut lists = Vec::new(alloc);
    let mut number: u32 = 0;
    for site in sites {
        let holds = is_of(looks, &site.kind);
        add_if(alloc, &mut lists, holds, site.token, number)?;
        number += 1;
    }
    Ok(lists)
}

/// The numbers of a table's sites, by token: those of conditions, of returned values, and of variables that are assigned.
#[derive(Drop)]
pub struct SiteLists {
    pub branches: Vec<Seq<u32>>,
    pub returns: Vec<Seq<u32>>,
    pub pairs: Vec<Seq<u32>>,
}

/// The numbers of the sites, by token.
pub fn site_lists(alloc: Global, sites: &[Site]) -> Result<SiteLists, Memory>
    requires { length sites.now ≤ site_limit }
    ensures branches { IfOk result (λ lists. (token : ℕ) → all_at lists.branches.items token ≡ sites_from 0 is_branch token sites.now) }
    ensures returns { IfOk result (λ lists. (token : ℕ) → all_at lists.returns.items token ≡ sites_from 0 is_return token sites.now) }
    ensures pairs { IfOk result (λ lists. (token : ℕ) → all_at lists.pairs.items token ≡ sites_from 0 is_pair token sites.now) }
{
    Ok(SiteLists {
        branches: sites_by_token(alloc, Looks::Branch, sites)?,
        returns: sites_by_token(alloc, Looks::Return, sites)?,
        pairs: sites_by_token(alloc, Looks::Pair, sites)?,
    })
}
