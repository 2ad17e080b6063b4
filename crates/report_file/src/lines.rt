ghost use Rattle.std.specs.Prelude.{◌≡◌, ◌≤◌, ℤ, IfSome, option_map};
ghost use Rattle.cbi_base.specs.Words.{number_of, IsId};
ghost use Rattle.report_file.specs.Fields.{value_at_end, counts_at, cut_of, entry_of_fields, label_at, label_in, outcome_at, outcome_in, outcome_of};
ghost use Rattle.report_file.specs.Fields.{program_field, run_at, status_of, trap_numbered, trap_of, work_at};
ghost use Rattle.report_file.specs.Reading.{Reads};
ghost use Rattle.report_file.specs.Report.{IsEntry, IsOutcome, IsRun, IsWork, is_positive};
ghost use Rattle.report_file.specs.Spelling.{label_fields, outcome_line, program_fields, run_fields, site_fields, title_fields, work_fields};

use crate::draft::Version;
use crate::label::Label;
use crate::report::Entry;
use cbi_base::{
    Counts, Fields, Outcome, ProgramId, Trap, Work, read_decimal, read_id, read_signed,
};

/// The greatest counter.
const GREATEST_COUNT: u64 = 9999999999999999;

/// The greatest number of a run.
const GREATEST_RUN: u64 = 4294967295;

/// The greatest number of a site.
const GREATEST_SITE: u64 = 65535;

/// The greatest number of a trap.
const GREATEST_TRAP: u64 = 99;

// The number whose decimal the field is, where it is at most `most`.
fn number_of(field: &[u8], most: u64) -> Option<u64>
    ensures value { result ≡ number_of most field.now }
    ensures most { IfSome result (λ n. n ≤ most) }
{
    read_decimal(field, most)
}

/// Takes `run R` off the fields.
#[tactic(auto, unfolding(crate::specs::Fields::run_at))]
pub fn take_run(fields: &mut Fields<'_>) -> Option<u32>
    ensures { option_map (λ run. (run, fields.new)) result ≡ run_at fields.old }
{
    let word = fields.next()?;
    let number = fields.next()?;
    if word != b"run".as_slice() {
        return None;
    }
    let run = number_of(number, GREATEST_RUN)?;
    if 1 <= run { Some(run as u32) } else { None }
}

fn trap_numbered(number: u64) -> Option<Trap>
    ensures { result ≡ trap_numbered number }
{
    match number {
        1 => Some(Trap::Overflow),
        2 => Some(Trap::Divide),
        3 => Some(Trap::Shift),
        4 => Some(Trap::Undefined),
        5 => Some(Trap::WrongKind),
        6 => Some(Trap::Bounds),
        7 => Some(Trap::Dead),
        8 => Some(Trap::NullUse),
        9 => Some(Trap::ReadOnly),
        10 => Some(Trap::BadFree),
        11 => Some(Trap::Unrelated),
        12 => Some(Trap::StackOverflow),
        13 => Some(Trap::Assertion),
        14 => Some(Trap::Abort),
        99 => Some(Trap::Internal),
        _ => None,
    }
}

fn trap_of(field: &[u8]) -> Option<Trap>
    ensures { result ≡ trap_of field.now }
{
    trap_numbered(number_of(field, GREATEST_TRAP)?)
}

fn status_of(field: &[u8]) -> Option<i32>
    ensures { result ≡ status_of field.now }
{
    let status = read_signed(field)?;
    if -2147483648 <= status && status <= 2147483647 {
        Some(status as i32)
    } else {
        None
    }
}

fn cut_of(field: &[u8]) -> Option<Outcome>
    ensures { result ≡ cut_of field.now }
{
    if field == b"turns".as_slice() {
        return Some(Outcome::CutTurns);
    }
    if field == b"output".as_slice() {
        return Some(Outcome::CutOutput);
    }
    None
}

#[tactic(auto, unfolding(crate::specs::Fields::outcome_of))]
fn outcome_of(word: &[u8], field: &[u8]) -> Option<Outcome>
    ensures { result ≡ outcome_of word.now field.now }
{
    if word == b"ended".as_slice() {
        let status = status_of(field)?;
        return Some(Outcome::Ended { status });
    }
    if word == b"trapped".as_slice() {
        let trap = trap_of(field)?;
        return Some(Outcome::Trapped { trap });
    }
    if word == b"cut".as_slice() {
        return cut_of(field);
    }
    None
}

/// Takes the two words of an outcome off the fields.
pub fn take_outcome(fields: &mut Fields<'_>) -> Option<Outcome>
    ensures { option_map (λ outcome. (outcome, fields.new)) result ≡ outcome_at fields.old }
{
    let word = fields.next()?;
    let field = fields.next()?;
    let outcome = outcome_of(word, field)?;
    Some(outcome)
}

#[tactic(auto, unfolding(crate::specs::Fields::label_in))]
fn label_in(field: &[u8]) -> Option<Label>
    ensures { result ≡ label_in field.now }
{
    if field == b"fail".as_slice() {
        return Some(Label::Fail);
    }
    if field == b"pass".as_slice() {
        return Some(Label::Pass);
    }
    if field == b"none".as_slice() {
        return Some(Label::Uncounted);
    }
    None
}

/// Takes `label L` off the fields.
pub fn take_label(fields: &mut Fields<'_>) -> Option<Label>
    ensures { option_map (λ label. (label, fields.new)) result ≡ label_at fields.old }
{
    let word = fields.next()?;
    let field = fields.next()?;
    if word != b"label".as_slice() {
        return None;
    }
    let label = label_in(field)?;
    Some(label)
}

// Three counters.
#[tactic(auto, unfolding(crate::specs::Fields::counts_at))]
fn take_counts(fields: &mut Fields<'_>) -> Option<Counts>
    ensures { option_map (λ counts. (counts, fields.new)) result ≡ counts_at fields.old }
{
    let first = fields.next()?;
    let second = fields.next()?;
    let third = fields.next()?;
    let first = number_of(first, GREATEST_COUNT)?;
    let second = number_of(second, GREATEST_COUNT)?;
    let third = number_of(third, GREATEST_COUNT)?;
    Some(Counts {
        first,
        second,
        third,
    })
}

/// Takes `work FAST SLOW TESTS` off the fields.
pub fn take_work(fields: &mut Fields<'_>) -> Option<Work>
    ensures { option_map (λ work. (work, fields.new)) result ≡ work_at fields.old }
{
    let word = fields.next()?;
    if word != b"work".as_slice() {
        return None;
    }
    let counts = take_counts(fields)?;
    Some(Work {
        fast: counts.first,
        slow: counts.second,
        tests: counts.third,
    })
}

/// Whether one of the counters is positive.
pub fn is_positive(counts: Counts) -> bool
    ensures { result ≡ is_positive counts }
{
    0 < counts.first || 0 < counts.second || 0 < counts.third
}

// The entry in the fields of its line.
#[tactic(auto, unfolding(crate::specs::Fields::entry_of_fields))]
fn entry_of_fields(fields: &mut Fields<'_>) -> Option<Entry>
    ensures { result ≡ entry_of_fields fields.old }
{
    let word = fields.next()?;
    let number = fields.next()?;
    if word != b"site".as_slice() {
        return None;
    }
    let site = number_of(number, GREATEST_SITE)?;
    let counts = take_counts(fields)?;
    if !fields.is_empty() || !is_positive(counts) {
        return None;
    }
    Some(Entry {
        site: site as u32,
        counts,
    })
}

/// The entry in a line.
pub fn entry_in(line: &[u8]) -> Option<Entry>
    ensures { Reads site_fields IsEntry line.now result }
{
    let mut fields = Fields::new(line);
    entry_of_fields(&mut fields)
}

/// The version, by the first line.
pub fn version_in(line: &[u8]) -> Option<Version>
    ensures { Reads title_fields (λ _. Unit {0}) line.now result }
{
    if line == b"cbi-report 1".as_slice() {
        return Some(Version::First);
    }
    if line == b"cbi-report 2".as_slice() {
        return Some(Version::Second);
    }
    None
}

// The text of the identity in the fields of its line.
fn program_field<'a>(fields: &mut Fields<'a>) -> Option<&'a [u8]>
    ensures { option_map (λ text. text.now) result ≡ program_field fields.old }
{
    let word = fields.next()?;
    let text = fields.next()?;
    if word != b"program".as_slice() || !fields.is_empty() {
        return None;
    }
    Some(text)
}

/// The value, where no field is left behind it.
pub fn alone<T: Drop>(value: T, fields: &Fields<'_>) -> Option<T>
    ensures { result ≡ value_at_end (value, fields.now) }
{
    if fields.is_empty() { Some(value) } else { None }
}

/// The identity in a line.
pub fn program_in(line: &[u8]) -> Option<ProgramId>
    ensures { Reads program_fields IsId line.now result }
{
    let mut fields = Fields::new(line);
    let Some(text) = program_field(&mut fields) else {
        return None;
    };
    read_id(text)
}

/// The run's number in a line.
pub fn run_in(line: &[u8]) -> Option<u32>
    ensures { Reads run_fields IsRun line.now result }
{
    let mut fields = Fields::new(line);
    let Some(run) = take_run(&mut fields) else {
        return None;
    };
    alone(run, &fields)
}

// The outcome in the fields of its line.
fn outcome_in_fields(fields: &mut Fields<'_>) -> Option<Outcome>
    ensures { result ≡ outcome_in fields.old }
{
    let word = fields.next()?;
    if word != b"outcome".as_slice() {
        return None;
    }
    let outcome = take_outcome(fields)?;
    alone(outcome, &*fields)
}

/// The outcome in a line.
pub fn outcome_in(line: &[u8]) -> Option<Outcome>
    ensures { Reads outcome_line IsOutcome line.now result }
{
    let mut fields = Fields::new(line);
    outcome_in_fields(&mut fields)
}

/// The label in a line.
pub fn label_of_line(line: &[u8]) -> Option<Label>
    ensures { Reads label_fields (λ _. Unit {0}) line.now result }
{
    let mut fields = Fields::new(line);
    let Some(label) = take_label(&mut fields) else {
        return None;
    };
    alone(label, &fields)
}

/// The work in a line.
pub fn work_in(line: &[u8]) -> Option<Work>
    ensures { Reads work_fields IsWork line.now result }
{
    let mut fields = Fields::new(line);
    let Some(work) = take_work(&mut fields) else {
        return None;
    };
    alone(work, &fields)
}
