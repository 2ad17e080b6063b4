ghost use Rattle.std.specs.Prelude.{◌≡◌, ◌+◌, ◌<◌, ◌^◌, []};
ghost use Rattle.planned_runs.specs.Labels.{labels_of, with_counted};

use report_file::Label;

/// How many runs count as what.
#[derive(Clone, Copy, Debug, PartialEq, Eq)]
pub struct LabelCounts {
    /// How many failed.
    pub failed: u32,
    /// How many succeeded.
    pub succeeded: u32,
    /// How many count as neither.
    pub neither: u32,
}

impl LabelCounts {
    /// Those of no runs.
    pub fn new() -> LabelCounts
        ensures { result ≡ labels_of [] }
    {
        LabelCounts {
            failed: 0,
            succeeded: 0,
            neither: 0,
        }
    }

    /// Those with one more run.
    pub fn add(&mut self, label: Label)
        requires { self.old.failed + self.old.succeeded + self.old.neither < 2 ^ 31 }
        ensures { self.new ≡ with_counted label self.old }
    {
        match label {
            Label::Fail => self.failed += 1,
            Label::Pass => self.succeeded += 1,
            Label::Uncounted => self.neither += 1,
        }
    }
}
