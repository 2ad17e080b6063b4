ghost use Rattle.std.specs.Prelude.{◌≡◌, ◌++◌, map, IfOk, OnOk};
ghost use Rattle.cbi_base.specs.Text.{line_with_newline, line_of_fields, text_of};
ghost use Rattle.report_file.specs.Reading.{Reads};
ghost use Rattle.report_file.specs.RunLine.{IsRunLine, first_run_line, line_of, line_rows, run_line_fields, second_of};
ghost use Rattle.report_file.specs.declared.draft.Version.TheVariants as version;

use crate::draft::Version;
use crate::label::{Label, label_of};
use crate::lines::{alone, take_label, take_outcome, take_run, take_work};
use crate::report::Report;
use crate::writing::{push_entries, push_label, push_outcome, push_run, push_work};
use cbi_base::{Fields, Memory, Outcome, Work};
use std::alloc::Global;

/// What the line of a run says in a collection.
#[derive(Clone, Copy, Debug)]
pub struct RunLine {
    pub run: u32,
    pub outcome: Outcome,
    pub label: Label,
    pub work: Work,
}

fn second_of(fields: &mut Fields<'_>) -> Option<RunLine>
    ensures { result ≡ second_of fields.old }
{
    let run = take_run(fields)?;
    let outcome = take_outcome(fields)?;
    let label = take_label(fields)?;
    let work = take_work(fields)?;
    let line = RunLine {
        run,
        outcome,
        label,
        work,
    };
    alone(line, &*fields)
}

fn first_of(fields: &mut Fields<'_>) -> Option<RunLine>
    ensures { result ≡ first_run_line fields.old }
{
    let run = take_run(fields)?;
    let outcome = take_outcome(fields)?;
    let work = take_work(fields)?;
    let line = RunLine {
        run,
        outcome,
        label: label_of(outcome, true),
        work,
    };
    alone(line, &*fields)
}

/// What a run's line says in a collection of this version; None exactly where the line is none.
pub fn run_line_in(version: Version, line: &[u8]) -> Option<RunLine>
    ensures { Reads (run_line_fields version) (IsRunLine version) line.now result }
{
    let mut fields = Fields::new(line);
    match version {
        Version::First => first_of(&mut fields),
        Version::Second => second_of(&mut fields),
    }
}

// The line of the report's run.
fn push_run_line(out: &mut Vec<u8>, report: &Report) -> Result<(), Memory>
    ensures { OnOk result (out.new.items ≡ out.old.items ++ line_with_newline (line_of_fields (run_line_fields version.Second (line_of report.now)))) }
{
    push_run(out, report.run)?;
    out.push(b' ')?;
    push_outcome(out, report.outcome)?;
    out.push(b' ')?;
    push_label(out, report.label)?;
    out.push(b' ')?;
    push_work(out, report.work)?;
    out.push(b'\n')?;
    Ok(())
}

/// The lines of a report in a collection: that of its run, and those of its sites.
pub fn report_lines(alloc: Global, report: &Report) -> Result<Vec<u8>, Memory>
    ensures { IfOk result (λ text. text.items ≡ text_of (map line_of_fields (line_rows report.now))) }
{
    let mut out = Vec::new(alloc);
    push_run_line(&mut out, report)?;
    push_entries(&mut out, report.entries.as_slice())?;
    Ok(out)
}
