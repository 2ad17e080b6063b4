ghost use Rattle.std.specs.Prelude.{◌≡◌, ◌≢◌, ◌++◌, ℕ, List, MatchOption, codes, slice_index};
ghost use Rattle.report_file.specs.Fields.{value_at_end, label_in};
ghost use Rattle.report_file.specs.Reading.{Reads};
ghost use Rattle.report_file.specs.RunLine.{IsRunLine};
ghost use Rattle.report_file.specs.declared.draft.Version.TheVariants as version;
ghost use Rattle.session_edits.specs.Fields.{change_in, run_in};
ghost use Rattle.session_edits.specs.Spelling.{IsChange, add_fields, edit_fields};

use crate::edit::Edit;
use cbi_base::{Fields, read_number};
use report_file::{Label, RunLine, Version, run_line_in};

// What follows `add ` in a line.
fn behind_add(line: &[u8]) -> Option<&[u8]>
    ensures { MatchOption result ((rest : List ℕ) → line.now ≢ codes "add " ++ rest) (λ rest. line.now ≡ codes "add " ++ rest.now) }
{
    line.strip_prefix(b"add ".as_slice())
}

/// What the line says of a run that is added.
pub fn added_run_in(line: &[u8]) -> Option<RunLine>
    ensures { Reads add_fields (IsRunLine version.Second) line.now result }
{
    let Some(rest) = behind_add(line) else {
        return None;
    };
    run_line_in(Version::Second, rest)
}

// The number of a run.
#[tactic(auto, unfolding(crate::specs::Fields::run_in))]
fn run_in(field: &[u8]) -> Option<u32>
    ensures { result ≡ run_in field.now }
{
    let run = read_number(field)?;
    if 1 <= run { Some(run) } else { None }
}

#[tactic(auto, unfolding(report_file::specs::Fields::label_in))]
fn label_in(field: &[u8]) -> Option<Label>
    ensures { result ≡ label_in field.now }
{
    if field == b"fail".as_slice() {
        return Some(Label::Fail);
    }
    if field == b"pass".as_slice() {
        return Some(Label::Pass);
    }
    if field == b"none".as_slice() {
        return Some(Label::Uncounted);
    }
    None
}

// The edit, where no field is left behind it.
fn alone(edit: Edit, fields: &Fields<'_>) -> Option<Edit>
    ensures { result ≡ value_at_end (edit, fields.now) }
{
    if fields.is_empty() { Some(edit) } else { None }
}

// The change in the fields of its line.
fn change_of(fields: &mut Fields<'_>) -> Option<Edit>
    ensures { result ≡ change_in fields.old }
{
    let word = fields.next()?;
    let run = run_in(fields.next()?)?;
    if word == b"remove".as_slice() {
        return alone(Edit::Remove { run }, &*fields);
    }
    if word != b"relabel".as_slice() {
        return None;
    }
    let label = label_in(fields.next()?)?;
    alone(Edit::Relabel { run, label }, &*fields)
}

/// The removal or relabelling in a line.
pub fn change_in(line: &[u8]) -> Option<Edit>
    ensures { Reads edit_fields IsChange line.now result }
{
    let mut fields = Fields::new(line);
    change_of(&mut fields)
}

/// The second byte of a line; 0 where there is none.
pub fn second_byte(line: &[u8]) -> u8
    ensures { result ≡ slice_index line.now 1 }
{
    match line {
        [_, second, ..] => *second,
        _ => 0,
    }
}
