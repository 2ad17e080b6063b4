//! A call of the tool, or of what reads its words alone.
use crate::few::Few;
use crate::watchers::{expect_lines, watchers_of};
use cases_rows::Page;
use cbi_base::{MemSink, MemStore, Sink, SinkError};
use cbi_words::{WordsError, read_words};
use probes::{FirstSeen, Hottest, LastSeen, Probe};
use top_call::cbi;

/// Calls the tool, with the watchers that the step asks for; the status. A number is a watcher that wants memory where it is told more observations.
pub fn call<O: Sink, E: Sink>(
    step: &str,
    words: &Vec<String>,
    store: &mut MemStore,
    out: &mut O,
    err: &mut E,
    told: &mut Page,
) -> u8 {
    let alloc = told.alloc();
    let mut probes: Vec<Box<dyn Probe>> = Vec::new(alloc);
    for word in watchers_of(step).split(' ') {
        if word == "first" {
            if let Some(probe) = told.done(Box::new(alloc, FirstSeen::new(alloc))) {
                told.done(probes.push(probe));
            }
        } else if word == "hottest" {
            if let Some(probe) = told.done(Box::new(alloc, Hottest::new(alloc))) {
                told.done(probes.push(probe));
            }
        } else if word == "last" {
            if let Some(probe) = told.done(Box::new(alloc, LastSeen::new(alloc))) {
                told.done(probes.push(probe));
            }
        } else if let Ok(most) = word.parse::<u64>() {
            if let Some(probe) = told.done(Box::new(alloc, Few::new(alloc, most))) {
                told.done(probes.push(probe));
            }
        }
    }
    let status = cbi(alloc, words, store, out, err, &mut probes);
    expect_lines(step, &probes, told);
    status
}

/// Puts a text into a sink, and answers the status.
fn put(sink: &mut MemSink, text: &[u8], status: u8) -> u8 {
    match sink.put(text) {
        Err(SinkError::Memory) => 7,
        _ => status,
    }
}

/// Reads the words alone: out takes the command, or err what it is told; the status.
pub fn read(words: &Vec<String>, out: &mut MemSink, err: &mut MemSink, told: &mut Page) -> u8 {
    let mut text = Page::new(told.alloc());
    match read_words(told.alloc(), words) {
        Ok(command) => {
            text.debug(command);
            text.say("\n");
            told.heed(&text);
            put(out, text.bytes(), 0)
        }
        Err(WordsError::Usage { text }) => put(err, text.as_str().as_bytes(), 2),
        Err(WordsError::Memory) => {
            told.want();
            7
        }
    }
}
