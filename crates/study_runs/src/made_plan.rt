ghost use Rattle.std.specs.Prelude.{◌≡◌, ◌≤◌, [], None};
ghost use Rattle.study_runs.specs.MadeRun.{IsMadeRun};
ghost use Rattle.study_runs.specs.Once.{made_once};

use crate::laws::made_lines_are_printable;
use crate::made_run::{MadeRun, make_run};
use crate::plan::StudyPlan;
use cbi_base::{Seq, Store};
use command_base::Fault;
use planned_runs::{RunInput, RunPlan};
use std::alloc::Global;

/// The runs of a study: nothing is read for them, and nothing says what their outputs should be.
impl RunPlan for StudyPlan {
    ghost covers = { λ plan number. (1 ≤ plan.rate) × (plan.rate ≤ 65536) };

    ghost names = { λ plan number. [] };

    ghost gives = { λ plan held number on. IsMadeRun plan.seed plan.rate number on.bank on.input × (on.expect ≡ None) };

    ghost refuses = { λ plan held number refusal. ⊥ };

    fn give<S: Store>(&self, alloc: Global, store: &mut S, number: u32) -> Result<RunInput, Fault> {
        made_lines_are_printable();
        let MadeRun { bank, input } = make_run(alloc, self.seed, self.rate, number)?;
        Ok(RunInput {
            bank,
            input: Seq::from_vec(input),
            expect: None,
        })
    }

    ghost once = { λ plan held number a b tells x y. made_once plan.seed plan.rate number a b x.0 y.0 x.1 y.1 };

    ghost apart = { λ plan held number on refusal tells x y. y };
}
