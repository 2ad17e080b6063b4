ghost use Rattle.std.specs.Prelude.{◌≡◌, ◌+◌, ◌≤◌, ◌<◌, [], ℕ, length, IfOk, IsTrue, Some, slice_get};
ghost use Rattle.std.specs.List.{list_any};
ghost use Rattle.collector.specs.Sites.{branches_of};
ghost use Rattle.fractions.specs.declared.tally.Tally.{Tally};
ghost use Rattle.report_file.specs.Report.{is_positive};
ghost use Rattle.elimination_tallies.specs.Predicates.{is_of, makes_true, predicates_in, is_true_in_entry, width_of};
ghost use Rattle.elimination_tallies.specs.Recount.{runs_of};
ghost use Rattle.elimination_tallies.specs.Runs.{AreEntriesOf};
ghost use Rattle.elimination_tallies.specs.Tallies.{Allows, AllowsEntries, AllowsEntry, AreRecounts, ChangedBy, ChangedByAll, tally_changed, counted_as};
ghost use Rattle.elimination_tallies.specs.Tallies.{one_if};
ghost use Rattle.elimination_tallies.specs.Table.{AreStarts};

use crate::predicates::{makes_true, width_of};
use crate::runs::report_after;
use cbi_base::{Counts, Memory, Seq};
use collector::{Collection, branches_of};
use flow::SiteTable;
use fractions::Tally;
use report_file::{Entry, Label};
use std::alloc::Global;
use std::marker::Model;

/// Which numbers of a table a run is in.
#[derive(Clone, Copy, Debug, PartialEq, Eq)]
pub enum Counted {
    Failing,
    Successful,
    Neither,
}

/// How an entry of a run changes the numbers of its site's predicates.
#[derive(Clone, Copy, Debug, PartialEq, Eq)]
pub enum Change {
    PutIn { counted: Counted },
    TakeOut { counted: Counted },
    MoveOver,
}

/// The numbers of a predicate over no runs.
const NO_RUNS: Tally = Tally {
    a: 0,
    b: 0,
    c: 0,
    d: 0,
};

/// The four numbers of each predicate over some runs, which change with the entries of a run. Contracts see it as which sites are branches, and the
/// numbers in the order of the predicates.
#[derive(Drop)]
pub struct Numbers {
    branches: Seq<bool>,
    starts: Vec<u32>,
    tallies: Vec<Tally>,
}

impl Model for Numbers {
    ghost use Rattle.std.specs.Prelude.{◌≡◌, length};
    ghost use Rattle.elimination_tallies.specs.Tallies.{Tallies};
    ghost use Rattle.elimination_tallies.specs.Table.{IsTallyTable};

    ghost Value = { Tallies };

    ghost view = { λ t. record { branches = t.branches; tallies = t.tallies.items } };

    ghost invariant = { λ t. IsTallyTable t.branches t.starts.items t.tallies.items };
}

/// What a run with this label is counted as.
pub fn counted_as(label: Label) -> Counted
    ensures { result ≡ counted_as label }
{
    match label {
        Label::Fail => Counted::Failing,
        Label::Pass => Counted::Successful,
        Label::Uncounted => Counted::Neither,
    }
}

// The numbers of a predicate after a change by an entry of its site.
fn changed(change: Change, shows: bool, tally: Tally) -> Tally
    requires { Allows change 1 (one_if shows) tally }
    ensures { result ≡ tally_changed change 1 (one_if shows) tally }
{
    let shown = u32::from(shows);
    let Tally { a, b, c, d } = tally;
    match change {
        Change::PutIn {
            counted: Counted::Failing,
        } => Tally {
            a: a + shown,
            b,
            c: c + 1,
            d,
        },
        Change::PutIn {
            counted: Counted::Successful,
        } => Tally {
            a,
            b: b + shown,
            c,
            d: d + 1,
        },
        Change::TakeOut {
            counted: Counted::Failing,
        } => Tally {
            a: a - shown,
            b,
            c: c - 1,
            d,
        },
        Change::TakeOut {
            counted: Counted::Successful,
        } => Tally {
            a,
            b: b - shown,
            c,
            d: d - 1,
        },
        Change::PutIn {
            counted: Counted::Neither,
        }
        | Change::TakeOut {
            counted: Counted::Neither,
        } => tally,
        Change::MoveOver => Tally {
            a: a - shown,
            b: b + shown,
            c: c - 1,
            d: d + 1,
        },
    }
}

// The number of the first predicate of each site, and how many predicates there are.
fn starts_of(alloc: Global, branches: &[bool]) -> Result<Vec<u32>, Memory>
    requires { length branches.now ≤ 65536 }
    ensures { IfOk result (λ starts. AreStarts branches.now starts.items) }
{
    let mut starts = Vec::new(alloc);
    let mut start = 0u32;
    starts.push(start)?;
    for branch in branches {
        start += width_of(*branch);
        starts.push(start)?;
    }
    Ok(starts)
}

// Changes the numbers of a site's predicates, which stand from this place on.
fn change_site(tallies: &mut [Tally], start: usize, branch: bool, counts: Counts, change: Change)
    requires within { start + width_of branch ≤ length tallies.old }
    requires allows { (n : ℕ) (t : Tally) → n < width_of branch → slice_get tallies.old (start + n) ≡ Some t
        → Allows change 1 (one_if (makes_true branch n counts)) t }
    ensures inside { (n : ℕ) (t : Tally) → n < width_of branch → slice_get tallies.old (start + n) ≡ Some t
        → slice_get tallies.new (start + n) ≡ Some (tally_changed change 1 (one_if (makes_true branch n counts)) t) }
    ensures before { (p : ℕ) → p < start → slice_get tallies.new p ≡ slice_get tallies.old p }
    ensures behind { (p : ℕ) → start + width_of branch ≤ p → slice_get tallies.new p ≡ slice_get tallies.old p }
{
    for number in 0..width_of(branch) {
        let place = start + number as usize;
        let shows = makes_true(branch, number, counts);
        tallies[place] = changed(change, shows, tallies[place]);
    }
}

impl Numbers {
    /// Over no runs.
    pub fn none(alloc: Global, branches: Seq<bool>) -> Result<Numbers, Memory>
        requires { length branches ≤ 65536 }
        ensures { IfOk result (AreRecounts branches []) }
    {
        let starts = starts_of(alloc, branches.as_slice())?;
        let count = starts[branches.len()] as usize;
        let tallies = vec![in alloc; NO_RUNS; count]?;
        Ok(Numbers {
            branches,
            starts,
            tallies,
        })
    }

    /// Over the runs of a collection.
    pub fn of(alloc: Global, collection: &Collection, table: &SiteTable) -> Result<Numbers, Memory>
        requires { collection.now.branches ≡ branches_of table.now.sites }
        ensures { IfOk result (AreRecounts (branches_of table.now.sites) (runs_of collection.now.reports)) }
    {
        collection.keeps();
        let _held = collection.reports_held();
        let mut numbers = Numbers::none(alloc, branches_of(alloc, table.sites())?)?;
        let mut run = 0;
        while let Some(report) = report_after(collection, run) {
            let counted = counted_as(report.label);
            numbers.change_all(report.entries.as_slice(), Change::PutIn { counted });
            run = report.run;
        }
        Ok(numbers)
    }

    /// The same numbers once more.
    pub fn copy(&self, alloc: Global) -> Result<Numbers, Memory>
        ensures { IfOk result (λ n. n ≡ self.now) }
    {
        let starts = Vec::from_slice(alloc, self.starts.as_slice())?;
        let tallies = Vec::from_slice(alloc, self.tallies.as_slice())?;
        let branches = Vec::from_slice(alloc, self.branches.as_slice())?;
        Ok(Numbers {
            branches: Seq::from_vec(branches),
            starts,
            tallies,
        })
    }

    /// How many sites there are.
    pub fn sites(&self) -> usize
        ensures { result ≡ length self.now.branches }
    {
        self.branches.len()
    }

    /// How many predicates there are.
    pub fn predicates(&self) -> u32
        ensures { result ≡ predicates_in self.now.branches }
    {
        self.tallies.len() as u32
    }

    /// The numbers of a predicate.
    pub fn tally(&self, predicate: u32) -> Tally
        requires { predicate < predicates_in self.now.branches }
        ensures { slice_get self.now.tallies predicate ≡ Some result }
    {
        self.tallies[predicate as usize]
    }

    /// Whether the entry makes the predicate true.
    pub fn shows(&self, predicate: u32, entry: &Entry) -> bool
        ensures { result ≡ is_true_in_entry self.now.branches predicate entry.now }
    {
        let site = entry.site as usize;
        if site >= self.branches.len() {
            return false;
        }
        let branch = self.branches.as_slice()[site];
        let start = self.starts[site];
        if predicate < start {
            return false;
        }
        let number = predicate - start;
        if number >= width_of(branch) {
            return false;
        }
        makes_true(branch, number, entry.counts)
    }

    /// The place of the predicate's site.
    pub fn site_of(&self, predicate: u32) -> usize
        requires { predicate < predicates_in self.now.branches }
        ensures within { result < length self.now.branches }
        ensures own { IsTrue (is_of self.now.branches result predicate) }
    {
        let mut site = 0;
        while self.starts[site + 1] <= predicate {
            site += 1;
        }
        site
    }

    /// Changes the numbers of the predicates of the entry's site.
    pub fn change(&mut self, entry: &Entry, change: Change)
        requires site { entry.now.site < length self.old.branches }
        requires positive { IsTrue (is_positive entry.now.counts) }
        requires allows { AllowsEntry change entry.now self.old }
        ensures { ChangedBy change entry.now self.old self.new }
    {
        let site = entry.site as usize;
        let branch = self.branches.as_slice()[site];
        let start = self.starts[site] as usize;
        change_site(
            self.tallies.as_mut_slice(),
            start,
            branch,
            entry.counts,
            change,
        );
    }

    /// Changes the numbers by the entries of a run.
    pub fn change_all(&mut self, entries: &[Entry], change: Change)
        requires entries { AreEntriesOf self.old.branches entries.now }
        requires allows { AllowsEntries change entries.now self.old }
        ensures { ChangedByAll change entries.now self.old self.new }
    {
        for entry in entries {
            self.change(entry, change);
        }
    }
}

/// Whether one of the entries makes the predicate true.
pub fn is_true(predicate: u32, numbers: &Numbers, entries: &[Entry]) -> bool
    ensures { result ≡ list_any (is_true_in_entry numbers.now.branches predicate) entries.now }
{
    for entry in entries {
        if numbers.shows(predicate, entry) {
            return true;
        }
    }
    false
}
