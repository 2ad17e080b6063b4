ghost use Rattle.std.specs.Prelude.{◌≡◌, ◌<◌, ◌≤◌, None, IfOk, IfErr, OnOk, length};
ghost use Rattle.cbi_base.specs.Faults.{CountHasRisen};
ghost use Rattle.collector.specs.Collected.{IsOfCollection, report_at, report_limit};
ghost use Rattle.command_base.specs.Faults.{HasCause, IfReadFault, IfFilesRead};
ghost use Rattle.command_base.specs.Names.{IsFirstMissing, AreHeld};
ghost use Rattle.report_file.specs.Report.{IsReport};
ghost use Rattle.planned_runs.specs.Steps.{Holds, IsNextHeld, IsOfProgram, IsOverfull, IsRunHeld, NextFailed, RunFailed};

use crate::input::RunInput;
use crate::plan::RunPlan;
use cbi_base::{Outcome, ProgramId, Refusal, Store, Work};
use collector::{AddFault, Collection};
use command_base::Fault;
use expected::agrees;
use flow::RunResult;
use machine::{Prepared, run_prepared};
use machine_laws::reports_of_runs_are_taken;
use probes::Probe;
use report_file::{Label, Report, RunSummary, label_of, make_report};
use std::alloc::Global;

/// How a run went, its work, and what it counts as.
#[derive(Clone, Copy, Debug)]
pub struct Ran {
    pub outcome: Outcome,
    pub work: Work,
    pub label: Label,
}

/// Adds the report of a run that isn't held.
fn hold(collection: &mut Collection, report: Report) -> Result<(), Fault>
    requires report { IsReport report }
    requires ours { IsOfCollection collection.old report }
    requires absent { report_at report.run collection.old.reports ≡ None }
    requires room { length collection.old.reports < report_limit }
    ensures ok { OnOk result (Holds report collection.old collection.new) }
    ensures fault { IfErr result (λ e. HasCause e (λ n. ⊥) ⊥ (IsOverfull report collection.old)) }
{
    match collection.add(report) {
        Ok(_) => Ok(()),
        Err(AddFault::TooManyMarks { run }) => Err(Fault::Refused {
            refusal: Refusal::TooManyMarks { run },
        }),
        Err(AddFault::Memory) => Err(Fault::Memory),
        Err(
            AddFault::Foreign { .. }
            | AddFault::NoSite { .. }
            | AddFault::Conflict { .. }
            | AddFault::TooManyReports { .. },
        ) => unreachable!(),
    }
}

/// Runs the program on this, and adds the report to the collection, which has none of this number.
fn add_run(
    alloc: Global,
    program: &Prepared<'_>,
    id: ProgramId,
    number: u32,
    turns: u32,
    on: RunInput,
    collection: &mut Collection,
    probes: &mut Vec<Box<dyn Probe>>,
) -> Result<Ran, Fault>
    requires number { 1 ≤ number }
    requires turns { turns ≤ 100000000 }
    requires input { length on.input ≤ 16777216 }
    requires own { IsOfProgram program.now id collection.old }
    requires absent { report_at number collection.old.reports ≡ None }
    requires room { length collection.old.reports < report_limit }
    ensures held { IfOk result (λ ran. IsRunHeld program.now id number turns (λ b. seen b) probes.old.items probes.new.items
        on ran collection.old collection.new) }
    ensures failed { IfErr result (RunFailed program.now id number turns (λ b. seen b) probes.old.items probes.new.items on collection.old) }
{
    reports_of_runs_are_taken();
    let _program = program.program();
    let RunInput {
        mut bank,
        input,
        expect,
    } = on;
    let ran = run_prepared(alloc, program, input.as_slice(), &mut bank, turns, probes)?;
    let label = label_of(ran.outcome, agrees(&expect, ran.output.as_slice()));
    let RunResult {
        outcome,
        counts,
        work,
        ..
    } = ran;
    let summary = RunSummary {
        outcome,
        work,
        counts,
    };
    let report = make_report(alloc, id, number, &summary, label)?;
    hold(collection, report)?;
    Ok(Ran {
        outcome,
        work,
        label,
    })
}

/// Runs the program on what the plan gives to this number, and adds the report to the collection, which has none of this number.
pub fn make_next<P: RunPlan, S: Store>(
    alloc: Global,
    program: &Prepared<'_>,
    id: ProgramId,
    plan: &P,
    number: u32,
    turns: u32,
    store: &mut S,
    collection: &mut Collection,
    probes: &mut Vec<Box<dyn Probe>>,
) -> Result<Ran, Fault>
    requires covers { P.covers plan.now number }
    requires number { 1 ≤ number }
    requires turns { turns ≤ 100000000 }
    requires own { IsOfProgram program.now id collection.old }
    requires absent { report_at number collection.old.reports ≡ None }
    requires room { length collection.old.reports < report_limit }
    ensures made { IfOk result (λ ran. IsNextHeld program.now id number turns (λ b. seen b) probes.old.items probes.new.items
        (P.gives plan.now (S.holds store.old)) ran collection.old collection.new) }
    ensures failed { IfErr result (NextFailed program.now id number turns (λ b. seen b) probes.old.items probes.new.items
        (P.gives plan.now (S.holds store.old)) (P.names plan.now) (P.refuses plan.now (S.holds store.old)) collection.old) }
    ensures rose { IfErr result (λ e. IfReadFault e (λ name. CountHasRisen (S.read_faults store.old) (S.read_faults store.new))) }
    ensures was_held { IfFilesRead result (AreHeld (S.holds store.old) (P.names plan.now number)) }
    ensures missing { S.is_sound store.old → IfErr result (λ e. IfReadFault e (IsFirstMissing (S.holds store.old) (P.names plan.now number))) }
    ensures held { S.holds store.new ≡ S.holds store.old }
    ensures writes { S.write_faults store.new ≡ S.write_faults store.old }
    ensures never_falls { S.read_faults store.old ≤ S.read_faults store.new }
    ensures sound { S.is_sound store.old → S.is_sound store.new }
    ensures sound_count { S.is_sound store.old → AreHeld (S.holds store.old) (P.names plan.now number) → S.read_faults store.new ≡ S.read_faults store.old }
{
    let on = match plan.give(alloc, store, number) {
        Ok(on) => on,
        Err(fault) => return Err(fault),
    };
    match add_run(alloc, program, id, number, turns, on, collection, probes) {
        Ok(ran) => Ok(ran),
        Err(fault) => Err(fault),
    }
}
