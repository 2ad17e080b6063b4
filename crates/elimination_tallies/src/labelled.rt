ghost use Rattle.std.specs.Prelude.{◌≡◌};
ghost use Rattle.elimination_tallies.specs.Recount.{is_failing};
ghost use Rattle.elimination_tallies.specs.Tallies.{one_if};

use cbi_base::Seq;
use report_file::{Entry, Label};

/// A run as a ranking sees it: what it counts as, and what it observed.
#[derive(Debug, Drop)]
pub struct LabelledRun {
    pub label: Label,
    pub entries: Seq<Entry>,
}

/// Whether a run with this label fails.
pub fn fails(label: Label) -> bool
    ensures { result ≡ is_failing label }
{
    match label {
        Label::Fail => true,
        Label::Pass | Label::Uncounted => false,
    }
}

/// How many failing runs one with this label is.
pub fn failures(label: Label) -> u32
    ensures { result ≡ one_if (is_failing label) }
{
    match label {
        Label::Fail => 1,
        Label::Pass | Label::Uncounted => 0,
    }
}
