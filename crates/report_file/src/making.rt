ghost use Rattle.std.specs.Prelude.{◌≡◌, ◌≤◌, length, IfOk};
ghost use Rattle.report_file.specs.Report.{IsOutcome, IsReport, IsSummary, entries_of};

use crate::label::Label;
use crate::lines::is_positive;
use crate::report::{Entry, Report, RunSummary};
use cbi_base::{Counts, Memory, Outcome, ProgramId, Seq};
use std::alloc::Global;

// The entries of the sites with a positive counter.
fn entries_of(alloc: Global, counts: &[Counts]) -> Result<Seq<Entry>, Memory>
    requires { length counts.now ≤ 65536 }
    ensures { IfOk result (λ entries. entries ≡ entries_of counts.now) }
{
    let mut entries = Seq::new(alloc);
    let mut site = 0u32;
    let mut rest = counts;
    while let [first, after @ ..] = rest {
        if is_positive(*first) {
            entries.push(Entry {
                site,
                counts: *first,
            })?;
        }
        site += 1;
        rest = after;
    }
    Ok(entries)
}

// The outcome itself: its status is an `int`.
fn spelled(outcome: Outcome) -> Outcome
    ensures same { result ≡ outcome }
    ensures is_outcome { IsOutcome result }
{
    match outcome {
        Outcome::Ended { status } => Outcome::Ended { status },
        other => other,
    }
}

/// The report of a run: it has exactly the sites with a positive counter, in their order.
pub fn make_report(
    alloc: Global,
    program: ProgramId,
    run: u32,
    summary: &RunSummary,
    label: Label,
) -> Result<Report, Memory>
    requires run { 1 ≤ run }
    requires summary { IsSummary summary.now }
    ensures report { IfOk result (λ r. r ≡ record {
      program = program;
      run = run;
      outcome = summary.now.outcome;
      label = label;
      work = summary.now.work;
      entries = entries_of summary.now.counts;
    }) }
    ensures spelled { IfOk result IsReport }
{
    Ok(Report {
        program,
        run,
        outcome: spelled(summary.outcome),
        label,
        work: summary.work,
        entries: entries_of(alloc, summary.counts.as_slice())?,
    })
}
