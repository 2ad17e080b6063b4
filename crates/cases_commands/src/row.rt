//! A row: what it gives the tool, call by call, and what must come of it.
use crate::calls::{call, read};
use crate::cloned::expect_clone;
use crate::no_memory::NoMemory;
use cases_rows::{
    Head, Page, Place, Rest, Rows, bad_line, expect, expect_files, expect_status, has_line, keep,
    numbers_of, store_of, words_of,
};
use cbi_base::{MemSink, MemStore};

/// The lines of a row. Its files and the calls of the store that fail are given for all its calls together. A call has its words, `watched` where the
/// tool's three watchers are to see it, or `watched` and the words of those that are: `first`, `hottest`, `last`, or a number for one of the rows' own that
/// wants memory where it is told more observations; the puts that fail, and what must come: the status, out and err, 0 and empty where they aren't said,
/// where they are the watchers' lines, whatever the status, and the files that are held then, or not. With `reading` the words are read alone, and out shows
/// the command. `keep P` puts what out took into the store, as one more call of it. `sampled P Q`: the program of the file P, sampled and written, is the
/// file Q. `then` parts the calls.
const FORM: [Head; 20] = [
    ("file ", Rest::File, Place::Given),
    ("store fails ", Rest::Numbers, Place::Given),
    ("words ", Rest::Text, Place::Call),
    ("words", Rest::Nothing, Place::Call),
    ("reading", Rest::Nothing, Place::Any),
    ("watched", Rest::Nothing, Place::Any),
    ("watched ", Rest::Some, Place::Any),
    ("lines", Rest::Way, Place::Any),
    ("out fails ", Rest::Numbers, Place::Any),
    ("err fails ", Rest::Numbers, Place::Any),
    ("out wants memory", Rest::Nothing, Place::Any),
    ("err wants memory", Rest::Nothing, Place::Any),
    ("status ", Rest::Number, Place::Any),
    ("out", Rest::Way, Place::Any),
    ("err", Rest::Way, Place::Any),
    ("holds ", Rest::Held, Place::Any),
    ("lacks ", Rest::Some, Place::Any),
    ("keep ", Rest::Some, Place::Any),
    ("sampled ", Rest::Some, Place::Any),
    ("then", Rest::Nothing, Place::Any),
];

/// Calls the tool, or reads the words alone, as a step says; the status.
fn call_as_said(
    step: &str,
    words: &Vec<String>,
    store: &mut MemStore,
    out: &mut MemSink,
    err: &mut MemSink,
    told: &mut Page,
) -> u8 {
    if has_line(step, "reading") {
        return read(words, out, err, told);
    }
    if has_line(step, "out wants memory") {
        return call(step, words, store, &mut NoMemory, err, told);
    }
    if has_line(step, "err wants memory") {
        return call(step, words, store, out, &mut NoMemory, told);
    }
    call(step, words, store, out, err, told)
}

/// Calls the tool as a step says, and tells what didn't come as it says.
fn call_with_words(step: &str, words: &Vec<String>, store: &mut MemStore, told: &mut Page) {
    let mut out = MemSink::new(numbers_of(step, "out fails ", 0, told));
    let mut err = MemSink::new(numbers_of(step, "err fails ", 0, told));
    let status = call_as_said(step, words, store, &mut out, &mut err, told);
    expect_status(step, status, told);
    expect(step, "out", out.taken(), told);
    expect(step, "err", err.taken(), told);
    keep(step, out.taken(), store, told);
}

/// Does a step, and tells its number too where something didn't come as it says.
fn tell_step(number: u64, step: &str, store: &mut MemStore, told: &mut Page) {
    let before = told.bytes().len();
    let words = words_of(step, told);
    call_with_words(step, &words, store, told);
    expect_files(step, store, told);
    expect_clone(step, store, told);
    if told.bytes().len() != before {
        told.say("\nin step ");
        told.number(number);
    }
}

/// The rows of calls.
pub struct Asked;

impl Rows for Asked {
    fn unread<'a>(&self, texts: &str, row: &'a str) -> Option<&'a str> {
        bad_line(&FORM, texts, row)
    }

    fn tell(&self, _rt: &HostRuntime, texts: &str, row: &str, told: &mut Page) {
        let mut store = store_of(texts, row, told);
        let mut number = 0u64;
        for step in row.split("\nthen\n") {
            number = number.saturating_add(1);
            tell_step(number, step, &mut store, told);
        }
    }
}
