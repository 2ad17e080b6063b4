ghost use Rattle.std.specs.Prelude.{◌≡◌, ◌+◌, ◌<◌, length, IfOk, IsTrue, Some, slice_get};
ghost use Rattle.collector.specs.Sites.{branches_of};
ghost use Rattle.report_file.specs.Report.{is_positive};
ghost use Rattle.elimination_tallies.specs.declared.numbers.Change.TheVariants as change;
ghost use Rattle.elimination_tallies.specs.Predicates.{is_of, predicates_in, is_true_in_entry};
ghost use Rattle.elimination.specs.Elimination.{IsElimination};
ghost use Rattle.elimination_tallies.specs.Recount.{runs_of};
ghost use Rattle.elimination_tallies.specs.Tallies.{AllowsEntry, AreRecounts, ChangedBy};

use crate::eliminator::{Eliminator, leaders_by};
use cbi_base::{Memory, Policy, Seq};
use collector::Collection;
use elimination_tallies::{Change, Counted, Listed, Numbers};
use flow::SiteTable;
use fractions::Tally;
use report_file::Entry;
use std::alloc::Global;
use std::marker::{Brand, Model};
use std::sync::ledger::{Blank, Book, Ledger, Share};

/// How many site entries were taken out of a table or moved within it. It takes no bytes, and only the two calls that do so change it.
#[derive(Drop)]
pub struct Steps<L: Ledger> {
    book: Book<L>,
    share: Share<L>,
}

impl<L: Ledger> Model for Steps<L> {
    ghost use Rattle.std.specs.Prelude.{ℕ, ◌<◌};

    ghost Value = { ℕ };

    ghost view = { λ s. s.book.total };

    ghost invariant = { λ s. 0 < s.share.parts };
}

impl<L: Ledger> Steps<L> {
    /// No steps yet, by a blank for the ledger.
    pub fn new(blank: Blank) -> Steps<L>
        requires name { blank.name ≡ L.name }
        requires parts { blank.parts ≡ L.parts }
        requires some { 0 < blank.parts }
        ensures { result ≡ 0 }
    {
        let (book, share) = blank.open();
        Steps { book, share }
    }

    // One more step.
    fn tick(&mut self)
        ensures { self.new ≡ self.old + 1 }
    {
        self.book.add(&mut self.share, 1);
    }
}

/// The four numbers of each predicate. [`TallyTable::new`] makes one, and [`elimination_from`] one that it keeps to itself; only
/// [`TallyTable::take_out`] and [`TallyTable::move_over`] change one, and it can't be copied. Contracts see it as which sites are branches, and the
/// numbers in the order of the predicates.
#[derive(Drop)]
pub struct TallyTable {
    numbers: Numbers,
}

impl Model for TallyTable {
    ghost use Rattle.elimination_tallies.specs.Tallies.{Tallies};

    ghost Value = { Tallies };

    ghost view = { λ t. t.numbers };
}

impl TallyTable {
    /// The numbers of each predicate over the runs of the collection.
    pub fn new(
        alloc: Global,
        collection: &Collection,
        table: &SiteTable,
    ) -> Result<TallyTable, Memory>
        requires { collection.now.branches ≡ branches_of table.now.sites }
        ensures { IfOk result (AreRecounts (branches_of table.now.sites) (runs_of collection.now.reports)) }
    {
        let numbers = Numbers::of(alloc, collection, table)?;
        Ok(TallyTable { numbers })
    }

    /// The numbers, to be looked at.
    pub fn numbers(&self) -> &Numbers
        ensures { result.now ≡ self.now }
    {
        &self.numbers
    }

    /// How many predicates there are.
    pub fn predicates(&self) -> u32
        ensures { result ≡ predicates_in self.now.branches }
    {
        self.numbers.predicates()
    }

    /// The numbers of a predicate.
    pub fn of(&self, predicate: u32) -> Tally
        requires { predicate < predicates_in self.now.branches }
        ensures { slice_get self.now.tallies predicate ≡ Some result }
    {
        self.numbers.tally(predicate)
    }

    /// Takes an entry of a run out of the numbers of its site's predicates.
    pub fn take_out<L: Ledger>(&mut self, entry: &Entry, counted: Counted, steps: &mut Steps<L>)
        requires site { entry.now.site < length self.old.branches }
        requires positive { IsTrue (is_positive entry.now.counts) }
        requires lowers { AllowsEntry (change.TakeOut counted) entry.now self.old }
        ensures changed { ChangedBy (change.TakeOut counted) entry.now self.old self.new }
        ensures step { steps.new ≡ steps.old + 1 }
    {
        self.numbers.change(entry, Change::TakeOut { counted });
        steps.tick();
    }

    /// Moves an entry of a failing run over to the numbers of successful runs.
    pub fn move_over<L: Ledger>(&mut self, entry: &Entry, steps: &mut Steps<L>)
        requires site { entry.now.site < length self.old.branches }
        requires positive { IsTrue (is_positive entry.now.counts) }
        requires room { AllowsEntry change.MoveOver entry.now self.old }
        ensures changed { ChangedBy change.MoveOver entry.now self.old self.new }
        ensures step { steps.new ≡ steps.old + 1 }
    {
        self.numbers.change(entry, Change::MoveOver);
        steps.tick();
    }

    /// Whether the entry makes the predicate true.
    pub fn shows(&self, predicate: u32, entry: &Entry) -> bool
        ensures { result ≡ is_true_in_entry self.now.branches predicate entry.now }
    {
        self.numbers.shows(predicate, entry)
    }

    /// The place of the predicate's site.
    pub fn site_of(&self, predicate: u32) -> usize
        requires { predicate < predicates_in self.now.branches }
        ensures within { result < length self.now.branches }
        ensures own { IsTrue (is_of self.now.branches result predicate) }
    {
        self.numbers.site_of(predicate)
    }
}

/// The elimination of a collection's runs, as [`crate::elimination`] has it, which begins with the numbers of the runs, kept by the caller, and recounts
/// nothing. The table that it makes of them is its own.
pub fn elimination_from(
    alloc: Global,
    collection: &Collection,
    numbers: Numbers,
    policy: Policy,
) -> Result<Seq<Listed>, Memory>
    requires { AreRecounts collection.now.branches (runs_of collection.now.reports) numbers }
    ensures { IfOk result (IsElimination collection.now.branches policy (runs_of collection.now.reports)) }
{
    let tallies = TallyTable { numbers };
    let eliminator = Eliminator::over(alloc, collection, tallies, policy)?;
    leaders_by::<Brand>(alloc, eliminator, Blank::new(1))
}
