ghost use Rattle.std.specs.Prelude.{◌≡◌, ◌<◌, ◌≤◌, [], true, false, IfOk, IfNone, IfSome};
ghost use Rattle.collector.specs.Sites.{branches_of};
ghost use Rattle.elimination_tallies.specs.Recount.{failing_runs, runs_of};
ghost use Rattle.suspicious_lines.specs.Suspects.{successful_runs, suspects_of};
ghost use Rattle.bug_rounds.specs.Search.{AreFound, IsNextBug, IsRoundDone, IsSearch, IsSearchStart};

use crate::bug::Bug;
use crate::live::{failing_numbers, first_own, others};
use cbi_base::{Memory, Policy, Seq};
use collector::Collection;
use elimination::{Eliminator, Steps};
use flow::SiteTable;
use std::alloc::Global;
use std::sync::ledger::{Blank, Ledger};
use suspicious_lines::{Totals, listed, suspects_by};

/// How far apart the places of a round stand in one function: more lines than this.
const APART: u32 = 3;

/// A search for bugs: the runs that are left, how many of them are successful, the numbers of the failing ones, and the bugs found so far.
#[derive(Drop)]
pub struct Search {
    pub eliminator: Eliminator,
    pub successful: u32,
    pub live: Vec<u32>,
    pub bugs: Vec<Bug>,
}

/// The bugs found, and how many failing runs they leave.
#[derive(Debug, Drop)]
pub struct Found {
    pub bugs: Seq<Bug>,
    pub rest: u32,
}

// A search over the runs of a collection, of which so many are successful.
fn start(
    alloc: Global,
    collection: &Collection,
    table: &SiteTable,
    successful: u32,
) -> Result<Search, Memory>
    requires table { collection.now.branches ≡ branches_of table.now.sites }
    requires successful { successful ≡ successful_runs (runs_of collection.now.reports) }
    ensures { IfOk result (IsSearchStart table.now collection.now.reports) }
{
    let live = failing_numbers(alloc, collection)?;
    let eliminator = Eliminator::new(alloc, collection, table, Policy::Failing)?;
    Ok(Search {
        eliminator,
        successful,
        live,
        bugs: Vec::new(alloc),
    })
}

// The bug of the next round, with at most so many places; None exactly where no predicate is true in a failing run that is left.
fn next_bug(
    alloc: Global,
    collection: &Collection,
    table: &SiteTable,
    also: u32,
    search: &Search,
) -> Result<Option<Bug>, Memory>
    requires table { collection.now.branches ≡ branches_of table.now.sites }
    requires also { 1 ≤ also }
    requires search { IsSearch table.now collection.now.reports search.now }
    ensures none { IfOk result (λ found. IfNone found (suspects_of table.now search.now.eliminator.runs ≡ [])) }
    ensures some { IfOk result (λ found. IfSome found (IsNextBug table.now also collection.now.reports search.now)) }
{
    let numbers = search.eliminator.tallies().numbers();
    let failing = search.eliminator.failing_left();
    let totals = Totals {
        failing,
        successful: search.successful,
    };
    let suspects = suspects_by(alloc, numbers, table)?;
    let mut places = listed(alloc, totals, APART, u64::from(also), suspects)?;
    if places.is_empty() {
        return Ok(None);
    }
    let leader = places.remove(0);
    let first = first_own(
        collection,
        numbers,
        leader.predicate,
        search.live.as_slice(),
    );
    Ok(Some(Bug {
        leader,
        first,
        others: Seq::from_vec(places),
        failing,
    }))
}

// One round; false exactly where there is no further bug, and nothing has changed then.
fn round<L: Ledger>(
    alloc: Global,
    collection: &Collection,
    table: &SiteTable,
    also: u32,
    search: &mut Search,
    steps: &mut Steps<L>,
) -> Result<bool, Memory>
    requires table { collection.now.branches ≡ branches_of table.now.sites }
    requires also { 1 ≤ also }
    requires search { IsSearch table.now collection.now.reports search.old }
    ensures last { IfOk result (λ more. more ≡ false → (search.new ≡ search.old) × (suspects_of table.now search.old.eliminator.runs ≡ [])) }
    ensures done { IfOk result (λ more. more ≡ true → IsRoundDone table.now also collection.now.reports search.old search.new) }
{
    let _sites = table.sites();
    let next = next_bug(alloc, collection, table, also, search)?;
    let Some(bug) = next else {
        return Ok(false);
    };
    let leader = bug.leader.predicate;
    let numbers = search.eliminator.tallies().numbers();
    let left = others(alloc, collection, numbers, leader, search.live.as_slice())?;
    search.bugs.push(bug)?;
    search.live = left;
    search.eliminator.step(leader, steps);
    Ok(true)
}

// What a search has found.
fn found_by(search: Search) -> Found
    ensures bugs { result.bugs ≡ search.bugs.items }
    ensures rest { result.rest ≡ failing_runs search.eliminator.runs }
{
    let rest = search.eliminator.failing_left();
    Found {
        bugs: Seq::from_vec(search.bugs),
        rest,
    }
}

// At most so many rounds.
fn rounds<L: Ledger>(
    alloc: Global,
    collection: &Collection,
    table: &SiteTable,
    most: u32,
    also: u32,
    mut search: Search,
    steps: &mut Steps<L>,
) -> Result<Found, Memory>
    requires table { collection.now.branches ≡ branches_of table.now.sites }
    requires also { 1 ≤ also }
    requires search { IsSearchStart table.now collection.now.reports search }
    ensures { IfOk result (AreFound table.now collection.now.reports most also) }
{
    collection.keeps();
    for _round in 0..most {
        let more = round(alloc, collection, table, also, &mut search, steps)?;
        if !more {
            return Ok(found_by(search));
        }
    }
    Ok(found_by(search))
}

/// At most so many bugs over the runs of a collection, of which so many are successful, each bug with at most so many places. Nobody counts the steps of the
/// ledger.
pub fn bugs_by<L: Ledger>(
    alloc: Global,
    collection: &Collection,
    table: &SiteTable,
    successful: u32,
    most: u32,
    also: u32,
    blank: Blank,
) -> Result<Found, Memory>
    requires name { blank.name ≡ L.name }
    requires parts { blank.parts ≡ L.parts }
    requires some { 0 < blank.parts }
    requires table { collection.now.branches ≡ branches_of table.now.sites }
    requires successful { successful ≡ successful_runs (runs_of collection.now.reports) }
    requires also { 1 ≤ also }
    ensures { IfOk result (AreFound table.now collection.now.reports most also) }
{
    let mut steps = Steps::<L>::new(blank);
    let search = start(alloc, collection, table, successful)?;
    let found = rounds(alloc, collection, table, most, also, search, &mut steps)?;
    Ok(found)
}
