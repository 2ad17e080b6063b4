//! A row: lines that ask, each of which answers a line, and what must be answered.
use crate::devices::{ask_sink, ask_store};
use crate::real::ask_files;
use crate::tables::ask_table;
use crate::texts::ask_text;
use cases_rows::{Head, Page, Place, Rest, Rows, bad_line, expect, numbers_of, store_of};
use cbi_base::{MemSink, MemStore};

/// The lines of a row. Its files, the calls of its store and the puts of its sink that fail are given, and then it asks, line by line. A line that asks
/// ends in a text behind a colon, the bytes or the name that it asks with. Out is what is answered.
const FORM: [Head; 22] = [
    ("file ", Rest::File, Place::Given),
    ("store fails ", Rest::Numbers, Place::Given),
    ("puts fail ", Rest::Numbers, Place::Given),
    ("decimal ", Rest::Text, Place::Call),
    ("signed:", Rest::Text, Place::Call),
    ("written:", Rest::Text, Place::Call),
    ("line from ", Rest::Text, Place::Call),
    ("fields:", Rest::Text, Place::Call),
    ("conversions:", Rest::Text, Place::Call),
    ("name:", Rest::Text, Place::Call),
    ("identity:", Rest::Text, Place::Call),
    ("traps", Rest::Nothing, Place::Call),
    ("refusals", Rest::Nothing, Place::Call),
    ("items ", Rest::Numbers, Place::Call),
    ("read ", Rest::Text, Place::Call),
    ("write ", Rest::Text, Place::Call),
    ("held:", Rest::Text, Place::Call),
    ("put:", Rest::Text, Place::Call),
    ("narrow ", Rest::Text, Place::Call),
    ("unflushed ", Rest::Text, Place::Call),
    ("real ", Rest::Text, Place::Call),
    ("out", Rest::Way, Place::Any),
];

/// Answers a line that asks with a text.
fn ask(rt: &HostRuntime, line: &str, store: &mut MemStore, sink: &mut MemSink, out: &mut Page) {
    let Some((head, text)) = line.split_once(':') else {
        return ask_table(line, out);
    };
    match head.strip_prefix("real ") {
        Some(head) => ask_files(rt, head, text, out),
        None => {
            ask_text(head, text, out);
            ask_store(head, text, store, out);
            ask_sink(head, text, sink, out);
        }
    }
}

/// Tells of the answers to a row's lines, where they aren't as it says.
fn tell_answers(
    rt: &HostRuntime,
    row: &str,
    store: &mut MemStore,
    sink: &mut MemSink,
    told: &mut Page,
) {
    let mut out = Page::new(rt.alloc());
    for line in row.split('\n') {
        ask(rt, line, store, sink, &mut out);
    }
    told.heed(&out);
    expect(row, "out", out.bytes(), told);
}

/// The rows of the shared types.
pub struct BaseRows;

impl Rows for BaseRows {
    fn unread<'a>(&self, texts: &str, row: &'a str) -> Option<&'a str> {
        bad_line(&FORM, texts, row)
    }

    fn tell(&self, rt: &HostRuntime, texts: &str, row: &str, told: &mut Page) {
        let mut store = store_of(texts, row, told);
        let mut sink = MemSink::new(numbers_of(row, "puts fail ", 0, told));
        tell_answers(rt, row, &mut store, &mut sink, told);
    }
}
