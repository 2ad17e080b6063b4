ghost use Rattle.std.specs.Prelude.{◌≡◌, ◌+◌, ◌<◌, ◌≤◌, [], length, replicate, All, IfOk, IfSome, IfNone, OnOk};
ghost use Rattle.collector.specs.Sites.{branches_of};
ghost use Rattle.elimination.specs.Elimination.{IsElimination, all_entries_taken, entries_taken, stepped_on};
ghost use Rattle.elimination_tallies.specs.Leading.{IsLeader, NonePasses};
ghost use Rattle.elimination_tallies.specs.Predicates.{predicates_in};
ghost use Rattle.report_file.specs.declared.report.Entry.{Entry};
ghost use Rattle.elimination.specs.declared.books.Slot.{Slot};
ghost use Rattle.elimination_tallies.specs.Recount.{failing_runs, runs_of};
ghost use Rattle.elimination.specs.Slots.{AreHolders, IsHeldToo};
ghost use Rattle.elimination_tallies.specs.Tallies.{AreRecounts};

use crate::books::{Books, Slot};
use crate::tally_table::{Steps, TallyTable};
use cbi_base::{Memory, Policy, Seq};
use collector::Collection;
use elimination_tallies::Listed;
use flow::SiteTable;
use report_file::Entry;
use std::alloc::Global;
use std::marker::{Brand, Model};
use std::sync::ledger::{Blank, Ledger};

/// Lists leaders one after another, by the policy's step after each. It keeps the numbers of all predicates over the runs that are left, and of each
/// site the runs that have an entry of it. Contracts see it as which sites are branches, the policy, and the runs that are left.
#[derive(Drop)]
pub struct Eliminator {
    policy: Policy,
    books: Books,
    holders: Vec<Seq<u32>>,
}

impl Model for Eliminator {
    ghost use Rattle.std.specs.Prelude.{length};
    ghost use Rattle.elimination.specs.Elimination.{EliminatorState};
    ghost use Rattle.elimination.specs.Slots.{AreBooks, AreHolders, left_of};

    ghost Value = { EliminatorState };

    ghost view = { λ e. record { branches = e.books.tallies.branches; policy = e.policy; runs = left_of e.books.slots.items } };

    ghost invariant = { λ e. AreBooks e.books × AreHolders (length e.books.tallies.branches) e.books.slots.items e.holders.items };
}

// Of each site the places of the runs that have an entry of it.
fn holders_of(alloc: Global, sites: usize, slots: &[Slot]) -> Result<Vec<Seq<u32>>, Memory>
    requires slots { length slots.now ≤ 100000 }
    requires entries { All (λ (s : Slot). All (λ (e : Entry). e.site < sites) s.run.entries) slots.now }
    ensures { IfOk result (λ holders. AreHolders sites slots.now holders.items) }
{
    let mut holders = no_holders(alloc, sites)?;
    for (place, slot) in slots.iter().enumerate() {
        add_holder(
            holders.as_mut_slice(),
            place as u32,
            slot.run.entries.as_slice(),
        )?;
    }
    Ok(holders)
}

fn no_holders(alloc: Global, sites: usize) -> Result<Vec<Seq<u32>>, Memory>
    ensures { IfOk result (λ holders. holders.items ≡ replicate sites []) }
{
    let mut holders = Vec::new(alloc);
    for _site in 0..sites {
        holders.push(Seq::new(alloc))?;
    }
    Ok(holders)
}

// Puts the place of a run among those of each site that it has an entry of.
fn add_holder(holders: &mut [Seq<u32>], place: u32, entries: &[Entry]) -> Result<(), Memory>
    requires { All (λ (e : Entry). e.site < length holders.old) entries.now }
    ensures { OnOk result (IsHeldToo place entries.now holders.old holders.new) }
{
    for entry in entries {
        holders[entry.site as usize].push(place)?;
    }
    Ok(())
}

impl Eliminator {
    /// An eliminator of the runs of a collection, with their labels.
    pub fn new(
        alloc: Global,
        collection: &Collection,
        table: &SiteTable,
        policy: Policy,
    ) -> Result<Eliminator, Memory>
        requires { collection.now.branches ≡ branches_of table.now.sites }
        ensures { IfOk result (λ e. e ≡ record { branches = branches_of table.now.sites; policy = policy; runs = runs_of collection.now.reports }) }
    {
        let tallies = TallyTable::new(alloc, collection, table)?;
        Eliminator::over(alloc, collection, tallies, policy)
    }

    /// One of these runs, whose numbers are at hand.
    pub(crate) fn over(
        alloc: Global,
        collection: &Collection,
        tallies: TallyTable,
        policy: Policy,
    ) -> Result<Eliminator, Memory>
        requires { AreRecounts collection.now.branches (runs_of collection.now.reports) tallies }
        ensures { IfOk result (λ e. e ≡ record { branches = collection.now.branches; policy = policy; runs = runs_of collection.now.reports }) }
    {
        let books = Books::new(alloc, collection, tallies)?;
        let sites = books.tallies.numbers().sites();
        let holders = holders_of(alloc, sites, books.slots.as_slice())?;
        Ok(Eliminator {
            policy,
            books,
            holders,
        })
    }

    /// The leader over the runs that are left, after which the policy's step is taken; None exactly where none passes. A step of the ledger is an entry of
    /// a run that is discarded or relabelled; the search for the leader isn't counted.
    pub fn next<L: Ledger>(&mut self, steps: &mut Steps<L>) -> Option<Listed>
        ensures leader { IfSome result (IsLeader self.old.branches self.old.runs) }
        ensures after { IfSome result (λ row. self.new ≡ stepped_on self.old row.predicate) }
        ensures steps { IfSome result (λ row. steps.new ≡ steps.old + entries_taken self.old.branches self.old.policy row.predicate self.old.runs) }
        ensures none { IfNone result (NonePasses self.old.branches self.old.runs) }
        ensures stays { IfNone result ((self.new ≡ self.old) × (steps.new ≡ steps.old)) }
    {
        let Some(row) = self.books.leader() else {
            return None;
        };
        self.step(row.predicate, steps);
        Some(row)
    }

    /// The policy's step after this leader. A step of the ledger is an entry of a run that is discarded or relabelled.
    pub fn step<L: Ledger>(&mut self, leader: u32, steps: &mut Steps<L>)
        requires { leader < predicates_in self.old.branches }
        ensures after { self.new ≡ stepped_on self.old leader }
        ensures steps { steps.new ≡ steps.old + entries_taken self.old.branches self.old.policy leader self.old.runs }
    {
        let site = self.books.tallies.site_of(leader);
        let places = self.holders[site].as_slice();
        self.books.step_each(self.policy, leader, places, steps);
    }

    /// How many runs are left.
    pub fn runs_left(&self) -> u32
        ensures { result ≡ length self.now.runs }
    {
        self.books.left
    }

    /// How many failing runs are left.
    pub fn failing_left(&self) -> u32
        ensures { result ≡ failing_runs self.now.runs }
    {
        self.books.failing
    }

    /// The numbers of each predicate over the runs that are left.
    pub fn tallies(&self) -> &TallyTable
        ensures { AreRecounts self.now.branches self.now.runs result.now }
    {
        &self.books.tallies
    }
}

// All leaders of an eliminator, until none passes.
fn leaders_of<L: Ledger>(
    alloc: Global,
    mut eliminator: Eliminator,
    steps: &mut Steps<L>,
) -> Result<Seq<Listed>, Memory>
    ensures rows { IfOk result (IsElimination eliminator.branches eliminator.policy eliminator.runs) }
    ensures steps { IfOk result (λ rows. steps.new ≡ steps.old + all_entries_taken eliminator.branches eliminator.policy eliminator.runs rows) }
{
    let mut rows = Seq::new(alloc);
    while let Some(row) = eliminator.next(steps) {
        rows.push(row)?;
    }
    Ok(rows)
}

/// The elimination of a collection's runs: all leaders, until none passes. The ledger grows by the entries of the runs that were discarded or relabelled.
pub fn counted_elimination<L: Ledger>(
    alloc: Global,
    collection: &Collection,
    table: &SiteTable,
    policy: Policy,
    steps: &mut Steps<L>,
) -> Result<Seq<Listed>, Memory>
    requires { collection.now.branches ≡ branches_of table.now.sites }
    ensures rows { IfOk result (IsElimination collection.now.branches policy (runs_of collection.now.reports)) }
    ensures steps { IfOk result (λ rows. steps.new ≡ steps.old + all_entries_taken collection.now.branches policy (runs_of collection.now.reports) rows) }
{
    let eliminator = Eliminator::new(alloc, collection, table, policy)?;
    leaders_of(alloc, eliminator, steps)
}

/// The same, by a ledger of its own.
pub(crate) fn leaders_by<L: Ledger>(
    alloc: Global,
    eliminator: Eliminator,
    blank: Blank,
) -> Result<Seq<Listed>, Memory>
    requires name { blank.name ≡ L.name }
    requires parts { blank.parts ≡ L.parts }
    requires some { 0 < blank.parts }
    ensures { IfOk result (IsElimination eliminator.branches eliminator.policy eliminator.runs) }
{
    let mut steps = Steps::<L>::new(blank);
    let rows = leaders_of(alloc, eliminator, &mut steps)?;
    Ok(rows)
}

/// The elimination of a collection's runs, where nobody counts the steps.
pub fn elimination(
    alloc: Global,
    collection: &Collection,
    table: &SiteTable,
    policy: Policy,
) -> Result<Seq<Listed>, Memory>
    requires { collection.now.branches ≡ branches_of table.now.sites }
    ensures { IfOk result (IsElimination collection.now.branches policy (runs_of collection.now.reports)) }
{
    let eliminator = Eliminator::new(alloc, collection, table, policy)?;
    leaders_by::<Brand>(alloc, eliminator, Blank::new(1))
}
