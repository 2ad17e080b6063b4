ghost use Rattle.std.specs.Prelude.{◌≡◌, ◌+◌, ◌<◌, ◌≤◌, ◌^◌, []};
ghost use Rattle.planned_runs.specs.Sums.{sums_of, sums_with_run};

use cbi_base::{Outcome, Work};

/// How runs went: how many trapped, ended and were cut, and the sums of their work.
#[derive(Clone, Copy, Debug, PartialEq, Eq)]
pub struct Sums {
    /// How many runs trapped.
    pub failed: u32,
    /// How many ended.
    pub ended: u32,
    /// How many were cut, for want of turns or of room on their output.
    pub cut: u32,
    /// How often a `choose` went fast, in all runs.
    pub fast: u128,
    /// How often one went slow.
    pub slow: u128,
    /// How often a `test` ran.
    pub tests: u128,
}

impl Sums {
    /// Those of no runs.
    pub fn new() -> Sums
        ensures { result ≡ sums_of [] }
    {
        Sums {
            failed: 0,
            ended: 0,
            cut: 0,
            fast: 0,
            slow: 0,
            tests: 0,
        }
    }

    /// Those with one more run.
    pub fn add(&mut self, outcome: Outcome, work: Work)
        requires runs { self.old.failed + self.old.ended + self.old.cut < 2 ^ 31 }
        requires fast { self.old.fast < 2 ^ 127 }
        requires slow { self.old.slow < 2 ^ 127 }
        requires tests { self.old.tests < 2 ^ 127 }
        ensures { self.new ≡ sums_with_run outcome work self.old }
    {
        match outcome {
            Outcome::Trapped { .. } => self.failed += 1,
            Outcome::Ended { .. } => self.ended += 1,
            Outcome::CutTurns | Outcome::CutOutput => self.cut += 1,
        }
        self.fast += u128::from(work.fast);
        self.slow += u128::from(work.slow);
        self.tests += u128::from(work.tests);
    }
}
