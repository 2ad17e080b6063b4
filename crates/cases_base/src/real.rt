//! The files of the system.
use crate::devices::{ask_read, ask_write};
use cases_rows::Page;
use cbi_base::{FileStore, Store};
use std::fs;

/// Writes so many bytes, and adds how many of them are read up to this limit and one.
fn ask_long<S: Store>(store: &mut S, name: &str, count: u64, most: u64, out: &mut Page) {
    let mut bytes = Page::new(out.alloc());
    for _ in 0..count {
        bytes.byte(7);
    }
    out.heed(&bytes);
    if store.write(out.alloc(), name, bytes.bytes()).is_err() {
        return;
    }
    if let Ok(read) = store.read(out.alloc(), name, most) {
        out.debug(read.len());
    }
    out.say("\n");
}

fn ask_with<S: Store>(store: &mut S, head: &str, text: &str, out: &mut Page) {
    let (word, rest) = head.split_once(' ').unwrap_or((head, ""));
    match word {
        "read" => ask_read(store, text, rest, out),
        "write" => ask_write(store, rest, text.as_bytes(), out),
        "long" => {
            let count = rest.parse::<u64>().unwrap_or(0);
            ask_long(store, text, count, count.saturating_sub(2), out);
        }
        _ => (),
    }
}

fn ask_remove(rt: &HostRuntime, name: &str, out: &mut Page) {
    out.say(if fs::remove_file(rt, name).is_ok() {
        "done\n"
    } else {
        "fault\n"
    });
}

/// Answers what asks the files of the system: `read MOST:NAME`, `write NAME:BYTES`, `long COUNT:NAME` or `remove:NAME`.
pub fn ask_files(rt: &HostRuntime, head: &str, text: &str, out: &mut Page) {
    if head == "remove" {
        return ask_remove(rt, text, out);
    }
    if let Some(files) = out.done(rt.clone()) {
        ask_with(&mut FileStore::new(files), head, text, out);
    }
}
