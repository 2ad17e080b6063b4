//! A row: what it gives, and what must come of it.
use crate::building::tell_built;
use crate::values::answer;
use crate::watching::tell_watched;
use cases_rows::{
    Answers, Head, Page, Place, Rest, Rows, bad_line, expect_values, has_any, rest_of,
};

/// The lines of a row. A run has its program, as a block or by the name of a text that all rows share; the bank's numbers, the turns and the input; `sampled`
/// where the sampled program is to run, and `watched` with three watchers. What must come of it: the outcome; the output, empty where it isn't said; and,
/// where they are said, each site's three counters, the fast and slow ways with the tests, and the watchers' lines. A program's predicates and the numbers by
/// which its nodes skip can be asked for as well. `sees 0 3` lets three watchers see sites. `value OPERATION VALUES is ANSWER` is a question by itself.
/// `builds N` builds a program of one function and enters the function with this number; its file must come, or nothing.
const FORM: [Head; 19] = [
    ("program is ", Rest::Some, Place::Given),
    ("program", Rest::Way, Place::Given),
    ("bank ", Rest::Numbers, Place::Given),
    ("turns ", Rest::Number, Place::Given),
    ("input", Rest::Way, Place::Given),
    ("sampled", Rest::Nothing, Place::Given),
    ("watched", Rest::Nothing, Place::Given),
    ("sees ", Rest::Numbers, Place::Given),
    ("sees", Rest::Nothing, Place::Given),
    ("outcome ", Rest::Some, Place::Call),
    ("output", Rest::Way, Place::Call),
    ("counts ", Rest::Some, Place::Call),
    ("work ", Rest::Numbers, Place::Call),
    ("lines", Rest::Way, Place::Call),
    ("skips ", Rest::Numbers, Place::Call),
    ("predicates", Rest::Way, Place::Call),
    ("value ", Rest::Some, Place::Call),
    ("builds ", Rest::Number, Place::Call),
    ("writes", Rest::Way, Place::Call),
];

/// What a row may ask for.
const ASKS: [&str; 6] = [
    "outcome ",
    "skips ",
    "value ",
    "builds ",
    "predicates",
    "sees",
];

/// The rows of programs, runs and values.
pub struct MachineRows;

impl Answers for MachineRows {
    fn answer(&self, question: &str, came: &mut Page) -> bool {
        answer(question, came)
    }
}

impl Rows for MachineRows {
    fn unread<'a>(&self, texts: &str, row: &'a str) -> Option<&'a str> {
        match bad_line(&FORM, texts, row) {
            None if !has_any(row, &ASKS) => Some("it asks for nothing"),
            bad => bad,
        }
    }

    fn tell(&self, _rt: &HostRuntime, texts: &str, row: &str, told: &mut Page) {
        expect_values(self, row, told);
        if let Some(main) = rest_of(row, "builds ") {
            tell_built(row, main, told);
        }
        tell_watched(texts, row, told);
    }
}
