ghost use Rattle.std.specs.Prelude.{◌≡◌, ℕ, ◌+◌, ◌≤◌, ◌<◌, ◌^◌, IfOk, OnOk, IfErr, IsErrAnd, IsSome};
ghost use Rattle.cbi_base.specs.Faults.{CountHasRisen};
ghost use Rattle.cbi_base.specs.declared.refusal.Refusal.{Refusal};
ghost use Rattle.command_base.specs.Faults.{HasCause, IfReadFault, Precedes};
ghost use Rattle.command_base.specs.Names.{IsOneOf, IsFirstMissing, AreHeld};
ghost use Rattle.planned_runs.specs.Left.{HavePlannedRun, LeftByPlan, PlanRefusedBy};
ghost use Rattle.planned_runs.specs.Runs.{names_from};

use crate::labels::LabelCounts;
use crate::one_run::make_next;
use crate::plan::RunPlan;
use crate::sums::Sums;
use cbi_base::{ProgramId, Store};
use collector::Collection;
use command_base::Fault;
use flow::{Program, one_ending};
use machine::Prepared;
use probes::Probe;
use std::alloc::Global;

/// The reports of runs by a plan, and how the runs went.
#[derive(Drop)]
pub struct PlannedRuns {
    pub collection: Collection,
    pub sums: Sums,
    pub labels: LabelCounts,
}

/// Runs the program, whose identity is told, as often as is asked: each run on what the plan gives to its number, from the first on, which is read when
/// the run is made. Each watcher is told what the runs observe, one after another. Refused as the plan refuses a run; and with TooManyMarks at the first
/// run with whose entries there are more than 16,777,216. At most 100,000 runs, with numbers from 1 to 4,294,967,295, of at most 100,000,000 turns each.
pub fn run_planned<P: RunPlan, S: Store>(
    alloc: Global,
    program: &Program,
    id: ProgramId,
    plan: &P,
    first: u32,
    count: u32,
    turns: u32,
    store: &mut S,
    probes: &mut Vec<Box<dyn Probe>>,
) -> Result<PlannedRuns, Fault>
    requires covers { (number : ℕ) → first ≤ number → number < first + count → P.covers plan.now number }
    requires first { 1 ≤ first }
    requires last { first + count ≤ 2 ^ 32 }
    requires count { count ≤ 100000 }
    requires turns { turns ≤ 100000000 }
    ensures ran { IfOk result (HavePlannedRun program.now (P.gives plan.now (S.holds store.old)) first count turns
        (λ b. seen b) probes.old.items probes.new.items id) }
    ensures left { IfErr result (LeftByPlan program.now (P.gives plan.now (S.holds store.old)) first count turns
        (λ b. seen b) probes.old.items probes.new.items (P.names plan.now) (P.refuses plan.now (S.holds store.old))) }
    ensures fault { IfErr result (λ e. HasCause e
        (λ name. IsOneOf (names_from (P.names plan.now) first count) name × CountHasRisen (S.read_faults store.old) (S.read_faults store.new)) ⊥
        (PlanRefusedBy program.now (P.gives plan.now (S.holds store.old)) first count turns (P.refuses plan.now (S.holds store.old)))) }
    ensures refused { (refusal : Refusal)
        → PlanRefusedBy program.now (P.gives plan.now (S.holds store.old)) first count turns (P.refuses plan.now (S.holds store.old)) refusal
        → IsSome (S.holds store.old) → IsErrAnd result Precedes }

    // Which names were held. No count falls, and a store that is sound stays so, with its counts.
    ensures was_held { OnOk result (AreHeld (S.holds store.old) (names_from (P.names plan.now) first count)) }
    ensures missing { S.is_sound store.old → IfErr result
        (λ e. IfReadFault e (IsFirstMissing (S.holds store.old) (names_from (P.names plan.now) first count))) }
    ensures held { S.holds store.new ≡ S.holds store.old }
    ensures writes { S.write_faults store.new ≡ S.write_faults store.old }
    ensures never_falls { S.read_faults store.old ≤ S.read_faults store.new }
    ensures sound { S.is_sound store.old → S.is_sound store.new }
    ensures sound_count { S.is_sound store.old → AreHeld (S.holds store.old) (names_from (P.names plan.now) first count)
        → S.read_faults store.new ≡ S.read_faults store.old }
{
    one_ending();
    let prepared = Prepared::of(alloc, program)?;
    let mut collection = Collection::new(alloc, id, prepared.program().table())?;
    let mut sums = Sums::new();
    let mut labels = LabelCounts::new();
    for done in 0..count {
        let number = first + done;
        let ran = match make_next(
            alloc,
            &prepared,
            id,
            plan,
            number,
            turns,
            store,
            &mut collection,
            probes,
        ) {
            Ok(ran) => ran,
            Err(fault) => return Err(fault),
        };
        sums.add(ran.outcome, ran.work);
        labels.add(ran.label);
    }
    Ok(PlannedRuns {
        collection,
        sums,
        labels,
    })
}
