//! The lines of a run that stand at a place of a text.
use cases_rows::{Page, expect, rest_of};
use cbi_base::{ProgramId, read_id};
use collector::{RunText, read_run};
use report_file::report_lines;

/// The identity in the texts of reports and collections.
const IDENTITY: &str = "e3b0c44298fc1c149afbf4c8996fb92427ae41e4649b934ca495991b7852b855";

/// The program that reports and collections are of.
pub fn program() -> Option<ProgramId> {
    read_id(IDENTITY.as_bytes())
}

/// The run whose lines stand at this place.
fn run_at(bytes: &[u8], place: &str, told: &mut Page) -> Option<RunText> {
    let program = program()?;
    let place = place.parse::<usize>().ok()?;
    if place > bytes.len() {
        return None;
    }
    told.done(read_run(told.alloc(), &program, bytes, place))?
}

fn expect_run(row: &str, run: &RunText, told: &mut Page) {
    if let Some(lines) = told.done(report_lines(told.alloc(), &run.report)) {
        expect(row, "lines", lines.as_slice(), told);
    }
    if rest_of(row, "end ").unwrap_or("").parse::<usize>() != Ok(run.end) {
        told.say("\nend ");
        told.debug(run.end);
    }
}

/// Tells where no run stands at the place, or another one than the row says.
fn tell_run(row: &str, bytes: &[u8], place: &str, told: &mut Page) {
    match run_at(bytes, place, told) {
        Some(run) => expect_run(row, &run, told),
        None => told.say("\nno run"),
    }
}

fn tell_none(bytes: &[u8], place: &str, told: &mut Page) {
    if run_at(bytes, place, told).is_some() {
        told.say("\na run at ");
        told.say(place);
    }
}

/// Tells where no run stands at the row's place, or another one than it says, or one at a place where there is none.
pub fn tell_found(row: &str, bytes: &[u8], told: &mut Page) {
    for place in rest_of(row, "no run at ").unwrap_or("").split(' ') {
        tell_none(bytes, place, told);
    }
    if let Some(place) = rest_of(row, "run at ") {
        tell_run(row, bytes, place, told);
    }
}
