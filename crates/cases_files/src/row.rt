//! A row: what it gives, and what must come of it.
use crate::bytes::bytes_of;
use crate::collecting::tell_steps;
use crate::finding::tell_found;
use crate::numbers::answer;
use crate::ranking_rows::tell_eliminations;
use crate::reading::{tell_identity, tell_made, tell_text};
use crate::thrown::tell_thrown;
use cases_rows::{
    Answers, Head, Page, Place, Rest, Rows, bad_line, expect_values, has_any, has_line, rest_of,
};
use flow::Program;
use program_file::read_program;

/// The lines of a row. A text, or the file of a program, is given in parts: a block, a text that all rows share, or a block that comes once for each number
/// from one to another, with the number for `#`.
///
/// - `reads program`, or `bank`, `report` or `collection`, or `list FIRST`, where the run on the first name has this number: the text goes wrong at a line
///   (`bad`), or is read, and written as it was (`same`) or as `writes` says. `cuts`: each cut of it goes wrong at the line where it stops, and
///   `cuts before x` with an x behind it. A bank's draws, and its position then.
/// - `identity`: that of the text. `makes SEED STREAM RATE COUNT`: a bank by the generator, with what is written of it, its draws and its position then.
///   `value QUESTION is ANSWER`.
/// - `finds`: the run at a place of the text, with its lines and its end, and places at which there is none.
/// - `collects`: steps, parted by `then`, over a collection of the program's runs: a report that is added, or one for each run, a collection that is merged,
///   the next run, another label, a run that is taken away; what that gives, how many reports are held, and what is written.
/// - `ranks`: under each policy the predicates that the elimination of the text's runs lists, as the reference does; how many runs are left behind the last,
///   and the four numbers that are kept of predicate 0; and the ranking; and the cards, with those near each predicate as the reference has them;
///   and the suspicious lines, ten at most and more than three lines apart, and the bugs, ten at most with three places each at most; and of a session that
///   takes these runs its leader with its numbers, and the numbers of predicate 0.
/// - `throws SEED COUNT`: so many collections of thrown runs, under each policy and near each predicate as the reference; so many eliminations at
///   least list several leaders.
const FORM: [Head; 48] = [
    ("program is ", Rest::Some, Place::Given),
    ("program each ", Rest::Named, Place::Given),
    ("program end", Rest::Way, Place::Given),
    ("program", Rest::Way, Place::Given),
    ("text is ", Rest::Some, Place::Any),
    ("text each ", Rest::Named, Place::Any),
    ("text end", Rest::Way, Place::Any),
    ("text", Rest::Way, Place::Any),
    ("reads program", Rest::Nothing, Place::Given),
    ("reads bank", Rest::Nothing, Place::Given),
    ("reads list ", Rest::Number, Place::Given),
    ("reads report", Rest::Nothing, Place::Given),
    ("reads collection", Rest::Nothing, Place::Given),
    ("bad ", Rest::Number, Place::Any),
    ("same", Rest::Nothing, Place::Any),
    ("writes", Rest::Way, Place::Any),
    ("cuts", Rest::Nothing, Place::Any),
    ("cuts before x", Rest::Nothing, Place::Any),
    ("draws ", Rest::Numbers, Place::Any),
    ("position ", Rest::Number, Place::Any),
    ("identity", Rest::Way, Place::Any),
    ("makes ", Rest::Numbers, Place::Given),
    ("value ", Rest::Some, Place::Any),
    ("finds", Rest::Nothing, Place::Given),
    ("run at ", Rest::Number, Place::Any),
    ("end ", Rest::Number, Place::Any),
    ("lines", Rest::Way, Place::Any),
    ("no run at ", Rest::Numbers, Place::Any),
    ("collects", Rest::Nothing, Place::Given),
    ("add runs 1 to ", Rest::Number, Place::Call),
    ("add", Rest::Nothing, Place::Call),
    ("merge", Rest::Nothing, Place::Call),
    ("next ", Rest::Number, Place::Call),
    ("relabel ", Rest::Some, Place::Call),
    ("remove ", Rest::Number, Place::Call),
    ("gives ", Rest::Some, Place::Any),
    ("holds ", Rest::Number, Place::Any),
    ("then", Rest::Nothing, Place::Any),
    ("ranks", Rest::Nothing, Place::Given),
    ("leaders ", Rest::Some, Place::Any),
    ("left ", Rest::Some, Place::Any),
    ("ranking ", Rest::Named, Place::Any),
    ("cards", Rest::Way, Place::Any),
    ("suspicious lines", Rest::Way, Place::Any),
    ("bugs", Rest::Way, Place::Any),
    ("session ", Rest::Some, Place::Any),
    ("throws ", Rest::Numbers, Place::Given),
    ("several from ", Rest::Number, Place::Any),
];

/// What a row may ask for.
const KINDS: [&str; 8] = [
    "reads ", "identity", "makes ", "value ", "finds", "collects", "ranks", "throws ",
];

/// What must come.
const DUE: [&str; 18] = [
    "bad ",
    "same",
    "writes",
    "cuts",
    "identity",
    "value ",
    "run at ",
    "no run at ",
    "gives ",
    "holds ",
    "leaders ",
    "left ",
    "ranking ",
    "cards",
    "suspicious lines",
    "bugs",
    "session ",
    "several from ",
];

/// Does what the row asks for of its text alone.
fn tell_bytes(texts: &str, row: &str, told: &mut Page) {
    let bytes = bytes_of(texts, row, "text", told);
    if let Some(word) = rest_of(row, "reads ") {
        tell_text(row, word, bytes.bytes(), told);
    }
    if has_line(row, "identity") {
        tell_identity(row, bytes.bytes(), told);
    }
    if has_line(row, "finds") {
        tell_found(row, bytes.bytes(), told);
    }
}

fn tell_ranks(texts: &str, row: &str, program: &Program, told: &mut Page) {
    let bytes = bytes_of(texts, row, "text", told);
    let _several = tell_eliminations(row, program.table(), bytes.bytes(), told);
}

/// Does what the row asks for of its program's runs.
fn tell_runs(texts: &str, row: &str, program: &Program, told: &mut Page) {
    if has_line(row, "collects") {
        tell_steps(texts, row, program.table(), told);
    }
    if has_line(row, "ranks") {
        tell_ranks(texts, row, program, told);
    }
    if let Some(words) = rest_of(row, "throws ") {
        tell_thrown(row, program.table(), words, told);
    }
}

fn tell_program(texts: &str, row: &str, told: &mut Page) {
    let file = bytes_of(texts, row, "program", told);
    match read_program(told.alloc(), file.bytes()) {
        Ok(program) => tell_runs(texts, row, &program, told),
        Err(_) => told.say("\nno program"),
    }
}

/// The rows of files and of rankings.
pub struct FileRows;

impl Answers for FileRows {
    fn answer(&self, question: &str, came: &mut Page) -> bool {
        answer(question, came)
    }
}

impl Rows for FileRows {
    /// Something has to be asked for, and something must come.
    fn unread<'a>(&self, texts: &str, row: &'a str) -> Option<&'a str> {
        match bad_line(&FORM, texts, row) {
            None if !has_any(row, &KINDS) || !has_any(row, &DUE) => Some("it asks for nothing"),
            bad => bad,
        }
    }

    fn tell(&self, _rt: &HostRuntime, texts: &str, row: &str, told: &mut Page) {
        expect_values(self, row, told);
        if let Some(words) = rest_of(row, "makes ") {
            tell_made(row, words, told);
        }
        if has_any(row, &["reads ", "identity", "finds"]) {
            tell_bytes(texts, row, told);
        }
        if has_any(row, &["collects", "ranks", "throws "]) {
            tell_program(texts, row, told);
        }
    }
}
