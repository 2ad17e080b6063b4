ghost use Rattle.std.specs.Prelude.{◌≡◌, ◌≤◌, ◌++◌, [], decimal, IfOk, OnOk};
ghost use Rattle.std.specs.List.{flat_map};
ghost use Rattle.command_base.specs.declared.done.Done.TheVariants.{Added, Counted};
ghost use Rattle.command_base.specs.Faults.{status_of};
ghost use Rattle.cbi_messages.specs.Done.{done_text};
ghost use Rattle.cbi_messages.specs.Told.{Tells, IsToldOn, IsUnchangedOr, fault_line, memory_line};

use cbi_base::{Memory, Sink, SinkError, push_decimal};
use command_base::{Done, Fault};
use probes::{Probe, push_lines};
use std::alloc::Global;

/// The status of a command that is done.
const DONE: u8 = 0;

/// The status of words that read as no command.
const USAGE: u8 = 2;

/// The status of a call that has no memory for what it does, or to report what went wrong.
const OUT_OF_MEMORY: u8 = 7;

/// The line that reports a fault.
fn fault_line(alloc: Global, fault: &Fault) -> Result<Vec<u8>, Memory>
    ensures { IfOk result (λ line. line.items ≡ fault_line fault.now) }
{
    let mut line = Vec::new(alloc);
    match fault {
        Fault::Read { name } => {
            line.extend_from_slice(b"cbi: read fault ")?;
            line.extend_from_slice(name.as_str().as_bytes())?;
            line.push(b'\n')?;
        }
        Fault::Write => line.extend_from_slice(b"cbi: write fault\n")?,
        Fault::Refused { refusal } => refusal.push_line(&mut line)?,
        Fault::Memory => line.extend_from_slice(b"cbi: out of memory\n")?,
    }
    Ok(line)
}

/// Writes the text to err, where it isn't empty. The status is as given, or 7 where memory is wanting; a fault of err changes none.
fn put_line<E: Sink>(err: &mut E, line: &[u8], status: u8) -> u8
    ensures told { Tells status result
        (IsToldOn E.faults E.taken err.old err.new line.now)
        (E.taken err.new ≡ E.taken err.old) }
    ensures rises { E.faults err.old ≤ E.faults err.new }
    ensures sound { E.is_sound err.old → E.is_sound err.new }
    ensures stays { E.is_sound err.old → E.faults err.new ≡ E.faults err.old }
{
    if line.is_empty() {
        return status;
    }
    match err.put(line) {
        Err(SinkError::Memory) => OUT_OF_MEMORY,
        _ => status,
    }
}

/// Reports on err words that read as no command.
pub fn tell_usage<E: Sink>(err: &mut E, text: &str) -> u8
    ensures told { Tells 2 result
        (IsToldOn E.faults E.taken err.old err.new text.now)
        (E.taken err.new ≡ E.taken err.old) }
    ensures rises { E.faults err.old ≤ E.faults err.new }
    ensures sound { E.is_sound err.old → E.is_sound err.new }
    ensures stays { E.is_sound err.old → E.faults err.new ≡ E.faults err.old }
{
    put_line(err, text.as_bytes(), USAGE)
}

/// Reports a fault on err, or that there is no memory to do so.
pub fn tell_fault<E: Sink>(alloc: Global, err: &mut E, fault: &Fault) -> u8
    ensures told { Tells (status_of fault.now) result
        (IsToldOn E.faults E.taken err.old err.new (fault_line fault.now))
        (IsUnchangedOr (E.taken err.old) (E.taken err.new)
        (IsToldOn E.faults E.taken err.old err.new memory_line)) }
    ensures rises { E.faults err.old ≤ E.faults err.new }
    ensures sound { E.is_sound err.old → E.is_sound err.new }
    ensures stays { E.is_sound err.old → E.faults err.new ≡ E.faults err.old }
{
    match fault_line(alloc, fault) {
        Ok(line) => put_line(err, line.as_slice(), fault.status()),
        Err(Memory) => put_line(err, b"cbi: out of memory\n", OUT_OF_MEMORY),
    }
}

/// The line of each watcher, in order.
fn lines_of(alloc: Global, probes: &Vec<Box<dyn Probe>>) -> Result<Vec<u8>, Memory>
    ensures { IfOk result (λ text. text.items ≡ flat_map (λ b. line_text b) probes.now.items) }
{
    let mut text = Vec::new(alloc);
    push_lines(probes, &mut text)?;
    Ok(text)
}

/// The line that reports what a collection took.
fn added_line(alloc: Global, added: u32, repeated: u128) -> Result<Vec<u8>, Memory>
    ensures { IfOk result (λ line. line.items ≡ done_text (Added added repeated) []) }
{
    let mut line = Vec::new(alloc);
    line.extend_from_slice(b"added ")?;
    push_decimal(&mut line, u128::from(added))?;
    line.extend_from_slice(b" repeated ")?;
    push_decimal(&mut line, repeated)?;
    line.push(b'\n')?;
    Ok(line)
}

/// Appends the words and the number.
fn push_count(line: &mut Vec<u8>, words: &[u8], number: u32) -> Result<(), Memory>
    ensures { OnOk result (line.new.items ≡ line.old.items ++ (words.now ++ decimal number)) }
{
    line.extend_from_slice(words)?;
    push_decimal(line, u128::from(number))
}

/// The line of each watcher, and then the line that counts the runs.
fn counted_lines(
    alloc: Global,
    runs: u32,
    failed: u32,
    succeeded: u32,
    neither: u32,
    probes: &Vec<Box<dyn Probe>>,
) -> Result<Vec<u8>, Memory>
    ensures { IfOk result (λ text. text.items ≡ done_text (Counted runs failed succeeded neither) (flat_map (λ b. line_text b) probes.now.items)) }
{
    let mut text = lines_of(alloc, probes)?;
    push_count(&mut text, b"runs ", runs)?;
    push_count(&mut text, b" failed ", failed)?;
    push_count(&mut text, b" succeeded ", succeeded)?;
    push_count(&mut text, b" neither ", neither)?;
    text.push(b'\n')?;
    Ok(text)
}

/// The text on err of a command that is done.
fn done_text(alloc: Global, done: Done, probes: &Vec<Box<dyn Probe>>) -> Result<Vec<u8>, Memory>
    ensures { IfOk result (λ text. text.items ≡ done_text done (flat_map (λ b. line_text b) probes.now.items)) }
{
    match done {
        Done::Lines => lines_of(alloc, probes),
        Done::Nothing => Ok(Vec::new(alloc)),
        Done::Added { added, repeated } => added_line(alloc, added, repeated),
        Done::Counted {
            runs,
            failed,
            succeeded,
            neither,
        } => counted_lines(alloc, runs, failed, succeeded, neither, probes),
    }
}

/// Writes to err what a command that is done has to say.
pub fn tell_done<E: Sink>(
    alloc: Global,
    err: &mut E,
    done: Done,
    probes: &Vec<Box<dyn Probe>>,
) -> u8
    ensures told { Tells 0 result
        (IsToldOn E.faults E.taken err.old err.new (done_text done (flat_map (λ b. line_text b) probes.now.items)))
        (IsUnchangedOr (E.taken err.old) (E.taken err.new)
        (IsToldOn E.faults E.taken err.old err.new memory_line)) }
    ensures rises { E.faults err.old ≤ E.faults err.new }
    ensures sound { E.is_sound err.old → E.is_sound err.new }
    ensures stays { E.is_sound err.old → E.faults err.new ≡ E.faults err.old }
{
    match done_text(alloc, done, probes) {
        Ok(text) => put_line(err, text.as_slice(), DONE),
        Err(Memory) => put_line(err, b"cbi: out of memory\n", OUT_OF_MEMORY),
    }
}
