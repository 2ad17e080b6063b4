ghost use Rattle.std.specs.Prelude.{◌≡◌, ◌≤◌, IfErr, IfOk, IsErr};
ghost use Rattle.study.specs.Studied.{IsRefusedStudy, IsStudied, LeftByStudy, StudyRefusedWith};

use cbi_base::{Memory, Refusal};
use compiler::{CompileError, Plan, compile, one_accepted_text};
use flow::{Schemes, one_ending};
use probes::Probe;
use ranking::ranking_of;
use std::alloc::Global;
use study_runs::{RunsFault, StudyPlan, Sums, one_made_run, run_all};

/// What a study's program is: sampled, with the sites of all schemes.
const SAMPLED: Plan = Plan::Sampled {
    schemes: Schemes {
        branches: true,
        returns: true,
        pairs: true,
    },
    part: None,
};

/// What a study comes to.
#[derive(Debug, Drop)]
pub struct StudyResult {
    /// The text of the ranking of its runs.
    pub ranking: Vec<u8>,
    /// How its runs went.
    pub sums: Sums,
}

/// Why a study comes to nothing.
#[derive(Debug, Drop)]
pub enum StudyFault {
    /// The text is refused, or with the entries of a run there would be more than 16,777,216.
    Refused { refusal: Refusal },
    /// Memory is wanting.
    Memory,
}

/// Compiles the text to its sampled program, runs that as the plan says, and ranks the predicates of all schemes by the runs. Each watcher is told
/// what the runs observe, one after another. Refused as `compile` refuses the text; and with TooManyMarks exactly where the reports of the runs up to
/// a first one have more than 16,777,216 entries. Memory is told where memory is wanting, and where `compile` tells it.
pub fn study(
    alloc: Global,
    text: &[u8],
    plan: StudyPlan,
    probes: &mut Vec<Box<dyn Probe>>,
) -> Result<StudyResult, StudyFault>
    requires runs { plan.runs ≤ 100000 }
    requires rate { (1 ≤ plan.rate) × (plan.rate ≤ 65536) }
    requires turns { plan.turns ≤ 100000000 }
    ensures studied { IfOk result (IsStudied text.now plan (λ b. seen b) probes.old.items probes.new.items) }
    ensures refused { IfErr result (StudyRefusedWith text.now plan) }
    ensures refused_only { IsRefusedStudy text.now plan → IsErr result }
    ensures left { IfErr result (LeftByStudy text.now plan (λ b. seen b) probes.old.items probes.new.items) }
{
    one_accepted_text();
    one_ending();
    one_made_run();
    let program = match compile(alloc, text, SAMPLED) {
        Ok(program) => program,
        Err(CompileError::Refused { refusal }) => return Err(StudyFault::Refused { refusal }),
        Err(CompileError::Memory) => return Err(StudyFault::Memory),
    };
    let ran = match run_all(alloc, &program, plan, probes) {
        Ok(ran) => ran,
        Err(RunsFault::TooManyMarks { run }) => {
            return Err(StudyFault::Refused {
                refusal: Refusal::TooManyMarks { run },
            });
        }
        Err(RunsFault::Memory) => return Err(StudyFault::Memory),
    };
    let ranking = match ranking_of(alloc, &ran.collection, program.table(), plan.policy) {
        Ok(ranking) => ranking,
        Err(Memory) => return Err(StudyFault::Memory),
    };
    Ok(StudyResult {
        ranking,
        sums: ran.sums,
    })
}
