ghost use Rattle.std.specs.Prelude.{◌≡◌, ◌≤◌, IfOk, IfErr};
ghost use Rattle.study_runs.specs.Faults.{IsOfStudy, IsSameFault};
ghost use Rattle.study_runs.specs.Left.{HaveRun, RunsLeftByFault};

use crate::fault::RunsFault;
use crate::plan::StudyPlan;
use cbi_base::{MemStore, ProgramId, Refusal};
use collector::Collection;
use command_base::Fault;
use flow::Program;
use planned_runs::{PlannedRuns, Sums, run_planned};
use probes::Probe;
use std::alloc::Global;

/// A study's reports are of a program without a file, so without an identity.
const NO_IDENTITY: ProgramId = ProgramId { bytes: [0; 32] };

/// The reports of a study's runs, and how the runs went.
#[derive(Drop)]
pub struct StudyRuns {
    pub collection: Collection,
    pub sums: Sums,
}

/// Which fault of a study it is.
fn fault_of(fault: Fault) -> RunsFault
    requires { IsOfStudy fault }
    ensures { IsSameFault fault result }
{
    match fault {
        Fault::Refused {
            refusal: Refusal::TooManyMarks { run },
        } => RunsFault::TooManyMarks { run },
        Fault::Memory => RunsFault::Memory,
        Fault::Read { .. } | Fault::Write | Fault::Refused { .. } => unreachable!(),
    }
}

/// Runs the program as often as the plan says: each run on the bank and the line that are made for its number, from 1 on. Each watcher is told what
/// the runs observe, one after another. TooManyMarks comes at the first run with whose entries there are more than 16,777,216.
pub fn run_all(
    alloc: Global,
    program: &Program,
    plan: StudyPlan,
    probes: &mut Vec<Box<dyn Probe>>,
) -> Result<StudyRuns, RunsFault>
    requires runs { plan.runs ≤ 100000 }
    requires rate { (1 ≤ plan.rate) × (plan.rate ≤ 65536) }
    requires turns { plan.turns ≤ 100000000 }
    ensures ran { IfOk result (HaveRun program.now plan (λ b. seen b) probes.old.items probes.new.items) }
    ensures left { IfErr result (RunsLeftByFault program.now plan (λ b. seen b) probes.old.items probes.new.items) }
{
    // A store without names: nothing is read.
    let mut store = MemStore::new(Vec::new(alloc), Vec::new(alloc));
    match run_planned(
        alloc,
        program,
        NO_IDENTITY,
        &plan,
        1,
        plan.runs,
        plan.turns,
        &mut store,
        probes,
    ) {
        Ok(
            PlannedRuns {
                collection,
                sums,
                ..
            },
        ) => Ok(StudyRuns { collection, sums }),
        Err(fault) => Err(fault_of(fault)),
    }
}
