ghost use Rattle.std.specs.Prelude.{◌≡◌, ◌≤◌, length, map, IfOk};
ghost use Rattle.elimination.specs.Elimination.{IsElimination, runs_after_leader, is_taken};
ghost use Rattle.elimination_reference.specs.Relabelling.{relabelled_run};

use crate::counting::fails;
use crate::entries::is_true;
use crate::leading::leader;
use cbi_base::{Memory, Policy, Seq};
use elimination_tallies::{LabelledRun, Listed};
use report_file::Label;
use std::alloc::Global;

// Whether the policy's step after this leader discards or relabels the run.
fn is_taken(branches: &[bool], policy: Policy, leader: u32, run: &LabelledRun) -> bool
    requires { length branches.now ≤ 65536 }
    ensures { result ≡ is_taken branches.now policy leader run.now }
{
    let is_true = is_true(branches, leader, run);
    match policy {
        Policy::All => is_true,
        Policy::Failing | Policy::Relabel => fails(run.label) && is_true,
    }
}

// A run that is taken counts as successful.
fn relabel_one(branches: &[bool], leader: u32, run: &mut LabelledRun)
    requires { length branches.now ≤ 65536 }
    ensures { run.new ≡ relabelled_run branches.now leader run.old }
{
    if is_taken(branches, Policy::Relabel, leader, run) {
        run.label = Label::Pass;
    }
}

// The runs that are taken count as successful.
fn relabel(branches: &[bool], leader: u32, runs: &mut [LabelledRun])
    requires { length branches.now ≤ 65536 }
    ensures { runs.new ≡ map (relabelled_run branches.now leader) runs.old }
{
    for run in runs.iter_mut() {
        relabel_one(branches, leader, run);
    }
}

/// What the policy leaves after a leader.
pub fn step(branches: &[bool], policy: Policy, leader: u32, runs: &mut Vec<LabelledRun>)
    requires { length branches.now ≤ 65536 }
    ensures { runs.new.items ≡ runs_after_leader branches.now policy leader runs.old.items }
{
    match policy {
        Policy::All | Policy::Failing => {
            runs.retain(|run| !is_taken(branches, policy, leader, run));
        }
        Policy::Relabel => relabel(branches, leader, runs.as_mut_slice()),
    }
}

/// The elimination of runs of a program, of whose sites it is known whether each is a branch: the leader, then that of the runs which the policy leaves
/// after it, until no predicate passes.
pub fn eliminate(
    alloc: Global,
    branches: &[bool],
    runs: Vec<LabelledRun>,
    policy: Policy,
) -> Result<Seq<Listed>, Memory>
    requires sites { length branches.now ≤ 65536 }
    requires runs { length runs.items ≤ 100000 }
    ensures { IfOk result (IsElimination branches.now policy runs.items) }
{
    let mut left = runs;
    let mut rows = Seq::new(alloc);
    while let Some(row) = leader(branches, left.as_slice()) {
        step(branches, policy, row.predicate, &mut left);
        rows.push(row)?;
    }
    Ok(rows)
}
