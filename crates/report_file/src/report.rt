ghost use Rattle.std.specs.Prelude.{◌≡◌, ◌↔◌, IsTrue};

use crate::label::Label;
use cbi_base::{Counts, Outcome, ProgramId, Seq, Work};

/// The counters of a site, as a report has them.
#[derive(Clone, Copy, Debug, PartialEq, Eq)]
pub struct Entry {
    pub site: u32,
    pub counts: Counts,
}

/// What a report says of a run of a program.
#[derive(Debug, Drop)]
pub struct Report {
    pub program: ProgramId,
    pub run: u32,
    pub outcome: Outcome,
    pub label: Label,
    pub work: Work,
    pub entries: Seq<Entry>,
}

/// What a report is made of: how a run went, and the counters of each site.
#[derive(Debug, Drop)]
pub struct RunSummary {
    pub outcome: Outcome,
    pub work: Work,
    pub counts: Seq<Counts>,
}

fn same_program(left: &ProgramId, right: &ProgramId) -> bool
    ensures { IsTrue result ↔ (left.now ≡ right.now) }
{
    *left == *right
}

fn same_outcome(left: Outcome, right: Outcome) -> bool
    ensures { IsTrue result ↔ (left ≡ right) }
{
    left == right
}

fn same_label(left: Label, right: Label) -> bool
    ensures { IsTrue result ↔ (left ≡ right) }
{
    left == right
}

fn same_work(left: Work, right: Work) -> bool
    ensures { IsTrue result ↔ (left ≡ right) }
{
    left == right
}

fn same_entries(left: &[Entry], right: &[Entry]) -> bool
    ensures { IsTrue result ↔ (left.now ≡ right.now) }
{
    left == right
}

impl Report {
    /// Whether two reports are the same.
    pub fn same(&self, other: &Report) -> bool
        ensures { IsTrue result ↔ (self.now ≡ other.now) }
    {
        if self.run != other.run || !same_program(&self.program, &other.program) {
            return false;
        }
        if !same_outcome(self.outcome, other.outcome) || !same_label(self.label, other.label) {
            return false;
        }
        same_work(self.work, other.work)
            && same_entries(self.entries.as_slice(), other.entries.as_slice())
    }
}
