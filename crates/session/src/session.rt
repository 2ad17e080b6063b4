ghost use Rattle.std.specs.Prelude.{◌≡◌, ◌<◌, [], false, is_some, IfNone, IfOk, IfSome, OnErr};
ghost use Rattle.collector.specs.Collected.{Adds, report_relabelled, report_at, without_report};
ghost use Rattle.collector.specs.Collecting.{IsCollection};
ghost use Rattle.collector.specs.Sites.{branches_of};
ghost use Rattle.elimination.specs.Elimination.{IsElimination};
ghost use Rattle.report_file.specs.Report.{IsReport};
ghost use Rattle.session.specs.Session.{SessionState, session_with_reports};
ghost use Rattle.elimination_tallies.specs.Leading.{IsLeader, NonePasses};
ghost use Rattle.elimination_tallies.specs.Predicates.{predicates_in};
ghost use Rattle.elimination_tallies.specs.Recount.{recount, runs_of};

use crate::kept::{Kept, put_in, take_out};
use cbi_base::{Memory, Policy, ProgramId, Seq};
use collector::{AddFault, Added, Collection, branches_of};
use elimination::elimination_from;
use elimination_tallies::{Listed, Numbers, leader_in};
use flow::SiteTable;
use fractions::Tally;
use report_file::{Label, Report};
use std::alloc::Global;
use std::marker::Model;

/// A collection whose reports come and go, and change their labels, with the numbers of all predicates over the runs that it holds. Contracts see it as
/// what the collection holds, with the policy of its rankings.
#[derive(Drop)]
pub struct Session {
    collection: Collection,
    kept: Kept,
    policy: Policy,
}

impl Model for Session {
    ghost use Rattle.session.specs.Session.{AreKept, SessionState};

    ghost Value = { SessionState };

    ghost view = { λ s. record { held = s.collection; policy = s.policy } };

    ghost invariant = { λ s. AreKept s.collection.branches s.collection.reports s.kept };
}

impl Session {
    /// No runs of the program with this table.
    pub fn new(
        alloc: Global,
        program: ProgramId,
        table: &SiteTable,
        policy: Policy,
    ) -> Result<Session, Memory>
        ensures { IfOk result (λ s. s ≡ record { held = record { program = program; branches = branches_of table.now.sites; reports = [] }; policy = policy }) }
    {
        let collection = Collection::new(alloc, program, table)?;
        let numbers = Numbers::none(alloc, branches_of(alloc, table.sites())?)?;
        Ok(Session {
            collection,
            kept: Kept {
                numbers,
                failing: 0,
            },
            policy,
        })
    }

    /// What a session keeps, as a collection does: the runs rise, each report can be spelled and is of the program and its sites, and the limits hold.
    pub fn keeps(&self)
        ensures { IsCollection self.now.held }
    {
        self.collection.keeps();
    }

    /// Adds a report, as a collection does.
    pub fn add(&mut self, report: Report) -> Result<Added, AddFault>
        requires { IsReport report }
        ensures adds { Adds self.old.held report result self.new.held }
        ensures policy { self.new.policy ≡ self.old.policy }
        ensures err { OnErr result (self.new ≡ self.old) }
    {
        let run = report.run;
        self.collection.keeps();
        match self.collection.add(report) {
            Ok(Added::New) => {
                put_in(&self.collection, &mut self.kept, run);
                Ok(Added::New)
            }
            Ok(Added::Repeated) => Ok(Added::Repeated),
            Err(fault) => Err(fault),
        }
    }

    /// Takes the report of a run away; false exactly where the run isn't held.
    pub fn remove(&mut self, run: u32) -> bool
        ensures found { result ≡ is_some (report_at run self.old.held.reports) }
        ensures after { self.new ≡ session_with_reports self.old (without_report run self.old.held.reports) }
        ensures absent { result ≡ false → self.new ≡ self.old }
    {
        take_out(&self.collection, &mut self.kept, run);
        self.collection.remove(run)
    }

    /// Gives the report of a run another label; false exactly where the run isn't held.
    pub fn relabel(&mut self, run: u32, label: Label) -> bool
        ensures found { result ≡ is_some (report_at run self.old.held.reports) }
        ensures after { self.new ≡ session_with_reports self.old (report_relabelled run label self.old.held.reports) }
        ensures absent { result ≡ false → self.new ≡ self.old }
    {
        take_out(&self.collection, &mut self.kept, run);
        let found = self.collection.relabel(run, label);
        put_in(&self.collection, &mut self.kept, run);
        found
    }

    /// The numbers of a predicate over the runs that are held now. They are kept, and nothing is counted.
    pub fn tally(&self, predicate: u32) -> Tally
        requires { predicate < predicates_in self.now.held.branches }
        ensures { result ≡ recount self.now.held.branches (runs_of self.now.held.reports) predicate }
    {
        self.kept.numbers.tally(predicate)
    }

    /// The leader over the runs that are held now, by one look at the kept numbers of each predicate; None exactly where none passes.
    pub fn leader(&self) -> Option<Listed>
        ensures leader { IfSome result (IsLeader self.now.held.branches (runs_of self.now.held.reports)) }
        ensures none { IfNone result (NonePasses self.now.held.branches (runs_of self.now.held.reports)) }
    {
        self.collection.keeps();
        leader_in(&self.kept.numbers, self.kept.failing)
    }

    /// All leaders over the runs that are held now, by the session's policy. The first one is found by a copy of the kept numbers; what the elimination
    /// takes out after each is what it costs.
    pub fn rank(&self, alloc: Global) -> Result<Seq<Listed>, Memory>
        ensures { IfOk result (IsElimination self.now.held.branches self.now.policy (runs_of self.now.held.reports)) }
    {
        let numbers = self.kept.numbers.copy(alloc)?;
        elimination_from(alloc, &self.collection, numbers, self.policy)
    }
}
