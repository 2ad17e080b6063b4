//! A program file beside that of its sampled program.
use cases_rows::{Page, rest_of};
use cbi_base::MemStore;
use program_file::{read_program, write_program};
use sampling::{may_clone, sample};

/// Adds the file of the sampled program of a program file.
fn push_clone(file: &[u8], came: &mut Page) {
    let alloc = came.alloc();
    let Ok(program) = read_program(alloc, file) else {
        return came.say("no program");
    };
    if !may_clone(&program) {
        return came.say("it may not be sampled");
    }
    if let Some(clone) = came.done(sample(alloc, program)) {
        if let Some(bytes) = came.done(write_program(alloc, &clone)) {
            came.put(bytes.as_slice());
        }
    }
}

/// Tells where the file of the first name, read, sampled and written, isn't that of the second.
fn tell_clone(names: &str, store: &MemStore, told: &mut Page) {
    let (full, sampled) = names.split_once(' ').unwrap_or((names, ""));
    let mut came = Page::new(told.alloc());
    push_clone(store.bytes_of(full).unwrap_or(b""), &mut came);
    told.heed(&came);
    if store.bytes_of(sampled) != Some(came.bytes()) {
        told.say("\nother bytes than ");
        told.say(sampled);
    }
}

/// Tells where a file that the step names isn't the sampled program of the other.
pub fn expect_clone(step: &str, store: &MemStore, told: &mut Page) {
    if let Some(names) = rest_of(step, "sampled ") {
        tell_clone(names, store, told);
    }
}
