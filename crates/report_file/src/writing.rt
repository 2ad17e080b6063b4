ghost use Rattle.std.specs.Prelude.{◌≡◌, ◌++◌, ◌∷◌, decimal, map, IfOk, OnOk};
ghost use Rattle.cbi_base.specs.Text.{line_with_newline, line_of_fields, text_of};
ghost use Rattle.report_file.specs.Spelling.{head_rows, label_fields, outcome_fields, outcome_line, program_fields, report_text, run_fields, site_fields};
ghost use Rattle.report_file.specs.Spelling.{title_fields, work_fields};
ghost use Rattle.report_file.specs.declared.draft.Version.TheVariants as version;

use crate::label::Label;
use crate::report::{Entry, Report};
use cbi_base::{Memory, Outcome, ProgramId, Work, id_text, push_decimal};
use std::alloc::Global;

// A space and a decimal.
fn push_number(out: &mut Vec<u8>, number: u64) -> Result<(), Memory>
    ensures { OnOk result (out.new.items ≡ out.old.items ++ 32 ∷ decimal number) }
{
    out.push(b' ')?;
    push_decimal(out, u128::from(number))
}

/// Appends `run R`.
pub fn push_run(out: &mut Vec<u8>, run: u32) -> Result<(), Memory>
    ensures { OnOk result (out.new.items ≡ out.old.items ++ line_of_fields (run_fields run)) }
{
    out.extend_from_slice(b"run")?;
    push_number(out, u64::from(run))
}

/// Appends the two words of an outcome.
pub fn push_outcome(out: &mut Vec<u8>, outcome: Outcome) -> Result<(), Memory>
    ensures { OnOk result (out.new.items ≡ out.old.items ++ line_of_fields (outcome_fields outcome)) }
{
    match outcome {
        Outcome::Ended { status } => {
            if status < 0 {
                out.extend_from_slice(b"ended -")?;
            } else {
                out.extend_from_slice(b"ended ")?;
            }
            push_decimal(out, u128::from(status.unsigned_abs()))
        }
        Outcome::Trapped { trap } => {
            out.extend_from_slice(b"trapped")?;
            push_number(out, u64::from(trap.number()))
        }
        Outcome::CutTurns => Ok(out.extend_from_slice(b"cut turns")?),
        Outcome::CutOutput => Ok(out.extend_from_slice(b"cut output")?),
    }
}

/// Appends `label L`.
pub fn push_label(out: &mut Vec<u8>, label: Label) -> Result<(), Memory>
    ensures { OnOk result (out.new.items ≡ out.old.items ++ line_of_fields (label_fields label)) }
{
    match label {
        Label::Fail => Ok(out.extend_from_slice(b"label fail")?),
        Label::Pass => Ok(out.extend_from_slice(b"label pass")?),
        Label::Uncounted => Ok(out.extend_from_slice(b"label none")?),
    }
}

/// Appends `work FAST SLOW TESTS`.
pub fn push_work(out: &mut Vec<u8>, work: Work) -> Result<(), Memory>
    ensures { OnOk result (out.new.items ≡ out.old.items ++ line_of_fields (work_fields work)) }
{
    out.extend_from_slice(b"work")?;
    push_number(out, work.fast)?;
    push_number(out, work.slow)?;
    push_number(out, work.tests)
}

// Appends the line of a site.
fn push_entry(out: &mut Vec<u8>, entry: Entry) -> Result<(), Memory>
    ensures { OnOk result (out.new.items ≡ out.old.items ++ line_with_newline (line_of_fields (site_fields entry))) }
{
    out.extend_from_slice(b"site")?;
    push_number(out, u64::from(entry.site))?;
    push_number(out, entry.counts.first)?;
    push_number(out, entry.counts.second)?;
    push_number(out, entry.counts.third)?;
    out.push(b'\n')?;
    Ok(())
}

/// Appends the lines of the sites.
pub fn push_entries(out: &mut Vec<u8>, entries: &[Entry]) -> Result<(), Memory>
    ensures { OnOk result (out.new.items ≡ out.old.items ++ text_of (map line_of_fields (map site_fields entries.now))) }
{
    let mut rest = entries;
    while let [entry, after @ ..] = rest {
        push_entry(out, *entry)?;
        rest = after;
    }
    Ok(())
}

// Appends the first line and that of the identity.
fn push_title(out: &mut Vec<u8>, program: &ProgramId) -> Result<(), Memory>
    ensures { OnOk result (out.new.items ≡ out.old.items
        ++ (line_with_newline (line_of_fields (title_fields version.Second)) ++ line_with_newline (line_of_fields (program_fields program.now)))) }
{
    out.extend_from_slice(b"cbi-report 2\nprogram ")?;
    out.extend_from_slice(id_text(program).as_slice())?;
    out.push(b'\n')?;
    Ok(())
}

fn push_run_line(out: &mut Vec<u8>, run: u32) -> Result<(), Memory>
    ensures { OnOk result (out.new.items ≡ out.old.items ++ line_with_newline (line_of_fields (run_fields run))) }
{
    push_run(out, run)?;
    out.push(b'\n')?;
    Ok(())
}

fn push_outcome_line(out: &mut Vec<u8>, outcome: Outcome) -> Result<(), Memory>
    ensures { OnOk result (out.new.items ≡ out.old.items ++ line_with_newline (line_of_fields (outcome_line outcome))) }
{
    out.extend_from_slice(b"outcome ")?;
    push_outcome(out, outcome)?;
    out.push(b'\n')?;
    Ok(())
}

fn push_label_line(out: &mut Vec<u8>, label: Label) -> Result<(), Memory>
    ensures { OnOk result (out.new.items ≡ out.old.items ++ line_with_newline (line_of_fields (label_fields label))) }
{
    push_label(out, label)?;
    out.push(b'\n')?;
    Ok(())
}

fn push_work_line(out: &mut Vec<u8>, work: Work) -> Result<(), Memory>
    ensures { OnOk result (out.new.items ≡ out.old.items ++ line_with_newline (line_of_fields (work_fields work))) }
{
    push_work(out, work)?;
    out.push(b'\n')?;
    Ok(())
}

// Appends the lines before those of the sites.
fn push_head(out: &mut Vec<u8>, report: &Report) -> Result<(), Memory>
    ensures { OnOk result (out.new.items ≡ out.old.items ++ text_of (map line_of_fields (head_rows report.now))) }
{
    push_title(out, &report.program)?;
    push_run_line(out, report.run)?;
    push_outcome_line(out, report.outcome)?;
    push_label_line(out, report.label)?;
    push_work_line(out, report.work)?;
    Ok(())
}

/// The text of the report, in the second version.
pub fn write_report(alloc: Global, report: &Report) -> Result<Vec<u8>, Memory>
    ensures { IfOk result (λ text. text.items ≡ report_text report.now) }
{
    let mut out = Vec::new(alloc);
    push_head(&mut out, report)?;
    push_entries(&mut out, report.entries.as_slice())?;
    out.extend_from_slice(b"end\n")?;
    Ok(out)
}
