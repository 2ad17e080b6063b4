ghost use Rattle.std.specs.Prelude.{◌≡◌};
ghost use Rattle.report_file.specs.Label.{label_of};

use cbi_base::Outcome;

/// What a run counts as: a failing run, a successful one, or neither.
#[derive(Clone, Copy, Debug, PartialEq, Eq)]
pub enum Label {
    Fail,
    Pass,
    Uncounted,
}

/// The label of a run with this outcome, whose output is as it should be or isn't.
pub fn label_of(outcome: Outcome, agrees: bool) -> Label
    ensures { result ≡ label_of outcome agrees }
{
    match outcome {
        Outcome::Ended { .. } if agrees => Label::Pass,
        Outcome::Ended { .. } | Outcome::Trapped { .. } => Label::Fail,
        Outcome::CutTurns | Outcome::CutOutput => Label::Uncounted,
    }
}
