ghost use Rattle.std.specs.Prelude.{◌≡◌, ◌+◌, ◌<◌, ℕ, length, sum_by, All, IfOk, IfSome, IfNone, IsTrue, Some, slice_get};
ghost use Rattle.report_file.specs.Report.{is_positive};
ghost use Rattle.elimination.specs.declared.books.Slot.{Slot};
ghost use Rattle.elimination_tallies.specs.Leading.{IsLeader, NonePasses};
ghost use Rattle.elimination_tallies.specs.Recount.{runs_of};
ghost use Rattle.elimination_tallies.specs.Runs.{AreEntriesOf};
ghost use Rattle.elimination.specs.Slots.{AreBooks, HaveStepped, IsStepOf, change_of, discard_count, left_of, slot_entries_taken, taken_slot, takes_slot};
ghost use Rattle.elimination_tallies.specs.Tallies.{AllowsEntries, AllowsEntry, AreRecounts, ChangedBy, ChangedByAll};

use crate::tally_table::{Steps, TallyTable};
use cbi_base::{Memory, Policy};
use collector::Collection;
use elimination_tallies::{
    LabelledRun, Listed, counted_as, fails, failures, is_true, labelled_run, leader_in,
    report_after,
};
use report_file::{Entry, Label};
use std::alloc::Global;
use std::sync::ledger::Ledger;

/// A run, and whether it is left.
#[derive(Drop)]
pub struct Slot {
    pub run: LabelledRun,
    pub left: bool,
}

/// The runs with the numbers of all predicates over those that are left, how many of these fail, and how many there are.
#[derive(Drop)]
pub struct Books {
    pub tallies: TallyTable,
    pub slots: Vec<Slot>,
    pub failing: u32,
    pub left: u32,
}

// Whether the policy's step takes this run of those left.
fn takes(policy: Policy, leader: u32, tallies: &TallyTable, slot: &Slot) -> bool
    ensures { result ≡ takes_slot tallies.now.branches policy leader slot.now }
{
    if !slot.left {
        return false;
    }
    match policy {
        Policy::All => is_true(leader, tallies.numbers(), slot.run.entries.as_slice()),
        Policy::Failing | Policy::Relabel => {
            fails(slot.run.label) && is_true(leader, tallies.numbers(), slot.run.entries.as_slice())
        }
    }
}

// Changes the numbers by an entry of a run that the policy's step takes.
fn take_entry<L: Ledger>(
    policy: Policy,
    label: Label,
    entry: &Entry,
    tallies: &mut TallyTable,
    steps: &mut Steps<L>,
)
    requires site { entry.now.site < length tallies.old.branches }
    requires positive { IsTrue (is_positive entry.now.counts) }
    requires allows { AllowsEntry (change_of policy label) entry.now tallies.old }
    ensures changed { ChangedBy (change_of policy label) entry.now tallies.old tallies.new }
    ensures step { steps.new ≡ steps.old + 1 }
{
    match policy {
        Policy::All | Policy::Failing => tallies.take_out(entry, counted_as(label), steps),
        Policy::Relabel => tallies.move_over(entry, steps),
    }
}

// Changes the numbers by the entries of such a run.
fn take_entries<L: Ledger>(
    policy: Policy,
    label: Label,
    entries: &[Entry],
    tallies: &mut TallyTable,
    steps: &mut Steps<L>,
)
    requires entries { AreEntriesOf tallies.old.branches entries.now }
    requires allows { AllowsEntries (change_of policy label) entries.now tallies.old }
    ensures changed { ChangedByAll (change_of policy label) entries.now tallies.old tallies.new }
    ensures steps { steps.new ≡ steps.old + length entries.now }
{
    for entry in entries {
        take_entry(policy, label, entry, tallies, steps);
    }
}

// Discards the run of a slot, or counts it as successful.
fn take_slot(policy: Policy, slot: &mut Slot)
    ensures { slot.new ≡ taken_slot policy slot.old }
{
    match policy {
        Policy::All | Policy::Failing => slot.left = false,
        Policy::Relabel => slot.run.label = Label::Pass,
    }
}

// How many runs the policy discards with each that it takes.
fn discards(policy: Policy) -> u32
    ensures { result ≡ discard_count policy }
{
    match policy {
        Policy::All | Policy::Failing => 1,
        Policy::Relabel => 0,
    }
}

impl Books {
    /// The runs of a collection, all of them left, with their numbers.
    pub fn new(alloc: Global, collection: &Collection, tallies: TallyTable) -> Result<Books, Memory>
        requires { AreRecounts collection.now.branches (runs_of collection.now.reports) tallies }
        ensures books { IfOk result AreBooks }
        ensures branches { IfOk result (λ b. b.tallies.branches ≡ collection.now.branches) }
        ensures runs { IfOk result (λ b. left_of b.slots.items ≡ runs_of collection.now.reports) }
    {
        collection.keeps();
        let left = collection.reports_held();
        let mut slots = Vec::new(alloc);
        let mut failing = 0u32;
        let mut run = 0;
        while let Some(report) = report_after(collection, run) {
            run = report.run;
            failing += failures(report.label);
            let labelled = labelled_run(alloc, report)?;
            slots.push(Slot {
                run: labelled,
                left: true,
            })?;
        }
        Ok(Books {
            tallies,
            slots,
            failing,
            left,
        })
    }

    /// The leader over the runs that are left; None exactly where none passes.
    pub fn leader(&self) -> Option<Listed>
        requires { AreBooks self.now }
        ensures some { IfSome result (IsLeader self.now.tallies.branches (left_of self.now.slots.items)) }
        ensures none { IfNone result (NonePasses self.now.tallies.branches (left_of self.now.slots.items)) }
    {
        match leader_in(self.tallies.numbers(), self.failing) {
            None => None,
            Some(row) => Some(row),
        }
    }

    /// The policy's step at one run.
    pub fn step<L: Ledger>(
        &mut self,
        policy: Policy,
        leader: u32,
        place: usize,
        steps: &mut Steps<L>,
    )
        requires books { AreBooks self.old }
        requires place { place < length self.old.slots.items }
        ensures books { AreBooks self.new }
        ensures step { IsStepOf policy leader place self.old self.new }
        ensures steps { (s : Slot) → slice_get self.old.slots.items place ≡ Some s
            → steps.new ≡ steps.old + slot_entries_taken self.old.tallies.branches policy leader s }
    {
        let slot = &mut self.slots[place];
        if !takes(policy, leader, &self.tallies, slot) {
            return;
        }
        let label = slot.run.label;
        let entries = slot.run.entries.as_slice();
        take_entries(policy, label, entries, &mut self.tallies, steps);
        take_slot(policy, slot);
        self.failing -= failures(label);
        self.left -= discards(policy);
    }

    /// The policy's step at these runs.
    pub fn step_each<L: Ledger>(
        &mut self,
        policy: Policy,
        leader: u32,
        places: &[u32],
        steps: &mut Steps<L>,
    )
        requires books { AreBooks self.old }
        requires places { All (λ k. k < length self.old.slots.items) places.now }
        ensures books { AreBooks self.new }
        ensures stepped { HaveStepped policy leader places.now self.old self.new }
        ensures steps { steps.new + sum_by (slot_entries_taken self.old.tallies.branches policy leader) self.new.slots.items ≡ steps.old
            + sum_by (slot_entries_taken self.old.tallies.branches policy leader) self.old.slots.items }
    {
        for place in places {
            self.step(policy, leader, *place as usize, steps);
        }
    }
}
