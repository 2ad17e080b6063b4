//! Stores and sinks in memory, and a sink over a writer that takes little.
use crate::narrow::Narrow;
use cases_rows::Page;
use cbi_base::{MemSink, MemStore, Sink, SinkError, StdSink, Store, StoreError};

/// Adds `is`, the bytes and a newline.
pub fn push_bytes(bytes: &[u8], out: &mut Page) {
    out.say("is ");
    out.put(bytes);
    out.say("\n");
}

/// Reads up to so many bytes and one, by what any store does.
pub fn ask_read<S: Store>(store: &mut S, name: &str, most: &str, out: &mut Page) {
    match store.read(out.alloc(), name, most.parse::<u64>().unwrap_or(0)) {
        Ok(bytes) => push_bytes(bytes.as_slice(), out),
        Err(StoreError::Failed) => out.say("fault\n"),
        Err(StoreError::Memory) => out.want(),
    }
}

pub fn ask_write<S: Store>(store: &mut S, name: &str, bytes: &[u8], out: &mut Page) {
    match store.write(out.alloc(), name, bytes) {
        Ok(()) => out.say("done\n"),
        Err(StoreError::Failed) => out.say("fault\n"),
        Err(StoreError::Memory) => out.want(),
    }
}

fn push_held(store: &MemStore, name: &str, out: &mut Page) {
    match store.bytes_of(name) {
        Some(bytes) => push_bytes(bytes, out),
        None => out.say("none\n"),
    }
}

/// Answers what asks a store in memory: `read MOST:NAME`, `write NAME:BYTES` or `held:NAME`.
pub fn ask_store(head: &str, text: &str, store: &mut MemStore, out: &mut Page) {
    let (word, rest) = head.split_once(' ').unwrap_or((head, ""));
    match word {
        "held" => push_held(store, text, out),
        "read" => ask_read(store, text, rest, out),
        "write" => ask_write(store, rest, text.as_bytes(), out),
        _ => (),
    }
}

/// Puts the bytes by what any sink does.
fn put<S: Sink>(sink: &mut S, piece: &[u8], out: &mut Page) {
    match sink.put(piece) {
        Ok(()) => out.say("done "),
        Err(SinkError::Failed) => out.say("fault "),
        Err(SinkError::Memory) => out.want(),
    }
}

/// Puts the bytes into a sink over a writer that has room for so many.
fn ask_narrow(room: &str, flushes: bool, piece: &[u8], out: &mut Page) {
    let mut narrow = Narrow::new(out.alloc(), room.parse::<usize>().unwrap_or(0), flushes);
    put(&mut StdSink::new(&mut narrow), piece, out);
    push_bytes(narrow.taken(), out);
}

/// Answers what asks a sink: `put:BYTES`, or `narrow ROOM:BYTES` and `unflushed ROOM:BYTES` of one over a writer.
pub fn ask_sink(head: &str, text: &str, sink: &mut MemSink, out: &mut Page) {
    let (word, room) = head.split_once(' ').unwrap_or((head, ""));
    match word {
        "put" => {
            put(sink, text.as_bytes(), out);
            push_bytes(sink.taken(), out);
        }
        "narrow" => ask_narrow(room, true, text.as_bytes(), out),
        "unflushed" => ask_narrow(room, false, text.as_bytes(), out),
        _ => (),
    }
}
