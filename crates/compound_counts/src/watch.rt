ghost use Rattle.std.specs.Prelude.{◌≡◌, ◌*◌, ◌==◌, ◌<◌, ◌≤◌, ◌^◌, ℕ, [], length, replicate, slice_index, slice_index_or, slice_set, All, IfOk};
ghost use Rattle.std.specs.List.{list_any};
ghost use Rattle.collector.specs.Sites.{branches_of};
ghost use Rattle.report_file.specs.declared.report.Entry.{Entry};
ghost use Rattle.elimination_tallies.specs.Predicates.{predicates_in, is_true_in_entry};
ghost use Rattle.elimination_tallies.specs.Recount.{runs_of};
ghost use Rattle.elimination_tallies.specs.Runs.{AreEntriesOf};
ghost use Rattle.compound_bits.specs.Facts.{no_fact};
ghost use Rattle.compound_counts.specs.Rows.{AreFactRows, AreWatched, fact_in, room_for};
ghost use Rattle.compound_counts.specs.Runs.{counted_runs, run_count};
ghost use Rattle.compound_counts.specs.Seeing.{seen_row};

use crate::labels::{counts, run_count};
use cbi_base::{Memory, Seq};
use collector::Collection;
use compound_bits::FactRow;
use elimination::TallyTable;
use flow::SiteTable;
use report_file::Entry;
use std::alloc::Global;

/// The predicates whose facts are gathered, and of each site the places of those that are its own.
#[derive(Drop)]
pub struct Watch {
    pub predicates: Seq<u32>,
    pub sites: Vec<Seq<u32>>,
}

fn no_watch(alloc: Global, sites: usize) -> Result<Vec<Seq<u32>>, Memory>
    ensures { IfOk result (λ watched. watched.items ≡ replicate sites []) }
{
    let mut watched = Vec::new(alloc);
    for _site in 0..sites {
        watched.push(Seq::new(alloc))?;
    }
    Ok(watched)
}

// Of each site the places of the predicates that are its own.
fn watched_sites(
    alloc: Global,
    table: &SiteTable,
    tallies: &TallyTable,
    predicates: &[u32],
) -> Result<Vec<Seq<u32>>, Memory>
    requires sites { tallies.now.branches ≡ branches_of table.now.sites }
    requires predicates { All (λ p. p < predicates_in tallies.now.branches) predicates.now }
    requires few { length predicates.now < 2 ^ 32 }
    ensures { IfOk result (λ watched. AreWatched tallies.now.branches predicates.now (length predicates.now) watched.items) }
{
    let mut watched = no_watch(alloc, table.sites().len())?;
    for place in 0..predicates.len() {
        let site = tallies.site_of(predicates[place]);
        watched[site].push(place as u32)?;
    }
    Ok(watched)
}

impl Watch {
    pub fn new(
        alloc: Global,
        table: &SiteTable,
        tallies: &TallyTable,
        predicates: &[u32],
    ) -> Result<Watch, Memory>
        requires sites { tallies.now.branches ≡ branches_of table.now.sites }
        requires predicates { All (λ p. p < predicates_in tallies.now.branches) predicates.now }
        requires few { length predicates.now < 2 ^ 32 }
        ensures predicates { IfOk result (λ w. w.predicates ≡ predicates.now) }
        ensures watched { IfOk result (λ w. AreWatched tallies.now.branches w.predicates (length w.predicates) w.sites.items) }
    {
        let sites = watched_sites(alloc, table, tallies, predicates)?;
        let copy = Vec::from_slice(alloc, predicates)?;
        Ok(Watch {
            predicates: Seq::from_vec(copy),
            sites,
        })
    }
}

// An entry of the run at this place is seen by those of the predicates that watch its site.
fn see_entry(
    rows: &mut [FactRow],
    place: usize,
    predicates: &[u32],
    watchers: &[u32],
    tallies: &TallyTable,
    entry: &Entry,
)
    requires as_many { length rows.old ≡ length predicates.now }
    requires room { (c : ℕ) → c < length rows.old → place < length (slice_index_or rows.old c []) }
    requires watchers { All (λ w. w < length predicates.now) watchers.now }
    ensures as_many { length rows.new ≡ length rows.old }
    ensures seen { (c : ℕ) → c < length rows.old → slice_index_or rows.new c []
        ≡ seen_row place (list_any (λ w. w == c) watchers.now) (is_true_in_entry tallies.now.branches (slice_index predicates.now c) entry.now)
        (slice_index_or rows.old c []) }
{
    for watcher in watchers {
        let watcher = *watcher as usize;
        let shown = tallies.shows(predicates[watcher], entry);
        rows[watcher].see(place, shown);
    }
}

// The entries of the run at this place are seen.
fn see_run(
    rows: &mut [FactRow],
    place: usize,
    watch: &Watch,
    tallies: &TallyTable,
    entries: &[Entry],
)
    requires as_many { length rows.old ≡ length watch.now.predicates }
    requires room { (c : ℕ) → c < length rows.old → place < length (slice_index_or rows.old c []) }
    requires fresh { (c : ℕ) → c < length rows.old → slice_index_or (slice_index_or rows.old c []) place no_fact ≡ no_fact }
    requires watched { AreWatched tallies.now.branches watch.now.predicates (length watch.now.predicates) watch.now.sites.items }
    requires entries { AreEntriesOf tallies.now.branches entries.now }
    ensures as_many { length rows.new ≡ length rows.old }
    ensures seen { (c : ℕ) → c < length rows.old
        → slice_index_or rows.new c [] ≡ slice_set (slice_index_or rows.old c []) place
        (fact_in tallies.now.branches (slice_index watch.now.predicates c) entries.now) }
{
    let predicates = watch.predicates.as_slice();
    for entry in entries {
        let watchers = watch.sites[entry.site as usize].as_slice();
        see_entry(rows, place, predicates, watchers, tallies, entry);
    }
}

fn no_rows(alloc: Global, count: usize, words: usize) -> Result<Vec<FactRow>, Memory>
    ensures { IfOk result (λ rows. rows.items ≡ replicate count (replicate (64 * words) no_fact)) }
{
    let mut rows = Vec::new(alloc);
    for _row in 0..count {
        rows.push(FactRow::new(alloc, words)?)?;
    }
    Ok(rows)
}

/// The rows of the watched predicates over the failing runs of the collection, or over the successful ones.
pub fn rows_of(
    alloc: Global,
    collection: &Collection,
    watch: &Watch,
    tallies: &TallyTable,
    failing: bool,
) -> Result<Vec<FactRow>, Memory>
    requires branches { tallies.now.branches ≡ collection.now.branches }
    requires watched { AreWatched tallies.now.branches watch.now.predicates (length watch.now.predicates) watch.now.sites.items }
    ensures { IfOk result (λ rows. AreFactRows tallies.now.branches watch.now.predicates (room_for (run_count failing (runs_of collection.now.reports)))
        (counted_runs failing (runs_of collection.now.reports)) rows.items) }
{
    collection.keeps();
    let words = run_count(collection, failing) as usize / 64 + 1;
    let mut rows = no_rows(alloc, watch.predicates.len(), words)?;
    let mut place = 0;
    let mut last = 0;
    while let Some(report) = collection.next_report(last) {
        last = report.run;
        if !counts(failing, report.label) {
            continue;
        }
        let entries = report.entries.as_slice();
        see_run(rows.as_mut_slice(), place, watch, tallies, entries);
        place += 1;
    }
    Ok(rows)
}
