//! What the programs of a text do.
ghost use Rattle.flow.specs.Sites.{MayPart};
ghost use Rattle.compiler.specs.Planned.{part_in};

use crate::parts::push_parts;
use crate::plans::{full, sampled};
use cases_rows::{Page, numbers_in};
use cbi_base::{Counts, Outcome};
use compiler::{CompileError, Plan, compile};
use countdown_bank::Bank;
use flow::{Program, RunResult};
use machine::run;

/// A text, and what a run of its program is given.
#[derive(Debug, Clone, Copy)]
pub(crate) struct Given<'a> {
    pub(crate) text: &'a [u8],
    pub(crate) input: &'a [u8],
    pub(crate) turns: u32,
}

/// The letters of all schemes.
const ALL: &str = "brp";

/// The program of a text by a plan, or why there is none.
pub(crate) fn program_of(text: &[u8], plan: Plan, out: &mut Page) -> Option<Program>
    requires { MayPart (part_in plan) }
{
    match compile(out.alloc(), text, plan) {
        Ok(program) => Some(program),
        Err(CompileError::Memory) => {
            out.want();
            None
        }
        Err(CompileError::Refused { refusal }) => {
            out.debug(refusal);
            None
        }
    }
}

/// What a run of the program comes to; nothing where it is given too much.
fn ran(given: Given<'_>, program: &Program, bank: &mut Bank, out: &mut Page) -> Option<RunResult> {
    if given.turns > 100_000_000 || given.input.len() > 16_777_216 {
        return None;
    }
    let alloc = out.alloc();
    let mut probes = Vec::new(alloc);
    out.done(run(alloc, program, given.input, bank, given.turns, &mut probes))
}

/// The bank of these numbers.
fn bank_of(words: &str, out: &mut Page) -> Option<Bank> {
    match numbers_in(words, out) {
        Some(numbers) => Bank::new(numbers),
        None => None,
    }
}

/// What a run of the text's program by a plan comes to, with the bank of these numbers; where there is none, why is added.
pub(crate) fn result_of(
    given: Given<'_>,
    plan: Plan,
    numbers: &str,
    out: &mut Page,
) -> Option<RunResult>
    requires { MayPart (part_in plan) }
{
    let mut bank = bank_of(numbers, out)?;
    match program_of(given.text, plan, out) {
        Some(program) => ran(given, &program, &mut bank, out),
        None => None,
    }
}

/// Adds how a run ended: its status, its trap, or what it was cut for.
fn push_outcome(outcome: Outcome, out: &mut Page) {
    match outcome {
        Outcome::Ended { status } => out.debug(status),
        Outcome::Trapped { trap } => {
            out.say("trap ");
            out.number(trap.number());
        }
        Outcome::CutTurns => out.say("cut turns"),
        Outcome::CutOutput => out.say("cut output"),
    }
}

/// Adds how a run ended, and its output.
fn push_ending(seen: &RunResult, out: &mut Page) {
    push_outcome(seen.outcome, out);
    if !seen.output.is_empty() {
        out.say(" after ");
        out.put(seen.output.as_slice());
    }
}

/// Adds how this run ended where it isn't as the plain one did.
fn push_other(plain: &RunResult, other: &RunResult, name: &str, out: &mut Page) {
    if other.outcome != plain.outcome || other.output.as_slice() != plain.output.as_slice() {
        out.say(name);
        push_ending(other, out);
    }
}

/// Compares the run of the sampled program with each visit drawn.
fn push_other_drawn(given: Given<'_>, plain: &RunResult, full: &RunResult, out: &mut Page) {
    if let Some(each) = result_of(given, sampled(ALL), "1", out) {
        push_other(plain, &each, "; sampled ", out);
        if each.counts.as_slice() != full.counts.as_slice() {
            out.say("; sampled counts otherwise");
        }
    }
}

/// Compares the run of the sampled program with one visit in a thousand drawn.
fn push_other_seldom(given: Given<'_>, plain: &RunResult, out: &mut Page) {
    if let Some(few) = result_of(given, sampled(ALL), "1000", out) {
        push_other(plain, &few, "; seldom sampled ", out);
    }
}

/// Compares the runs of the program that observes each visit, of the sampled one, and of those with a part of the sites.
fn push_others(given: Given<'_>, plain: &RunResult, out: &mut Page) {
    if let Some(seen) = result_of(given, full(ALL), "1", out) {
        push_other(plain, &seen, "; full ", out);
        push_other_drawn(given, plain, &seen, out);
        push_other_seldom(given, plain, out);
        push_parts(given, ALL, &seen, out);
    }
}

/// Adds how the runs of a text's programs end.
pub(crate) fn push_ends(given: Given<'_>, out: &mut Page) {
    if let Some(plain) = result_of(given, Plan::Plain, "1", out) {
        push_ending(&plain, out);
        push_others(given, &plain, out);
    }
}

/// Adds how the plain program ends, and how much it writes.
pub(crate) fn push_fills(given: Given<'_>, out: &mut Page) {
    if let Some(plain) = result_of(given, Plan::Plain, "1", out) {
        push_outcome(plain.outcome, out);
        out.say(" after ");
        out.debug(plain.output.len());
    }
}

/// Adds a site's counters where one of them is above zero.
fn push_counts(site: usize, counts: Counts, out: &mut Page) {
    let numbers = [counts.first, counts.second, counts.third];
    if numbers == [0, 0, 0] {
        return;
    }
    out.say("; site ");
    out.debug(site);
    for number in numbers {
        out.say(" ");
        out.number(number);
    }
}

/// Adds how a run ended, its work, and its counters.
fn push_report(seen: &RunResult, out: &mut Page) {
    push_outcome(seen.outcome, out);
    out.say("; work");
    for number in [seen.work.fast, seen.work.slow, seen.work.tests] {
        out.say(" ");
        out.number(number);
    }
    for (site, counts) in seen.counts.as_slice().iter().enumerate() {
        push_counts(site, *counts, out);
    }
}

/// Adds the report of the program that observes each visit of these schemes.
pub(crate) fn push_full(given: Given<'_>, schemes: &str, out: &mut Page) {
    if let Some(seen) = result_of(given, full(schemes), "1", out) {
        push_report(&seen, out);
    }
}

/// Adds the report of the sampled program, by its schemes and the numbers of its bank.
pub(crate) fn push_sampled(given: Given<'_>, words: &str, out: &mut Page) {
    let (schemes, bank) = words.split_once(' ').unwrap_or((words, ""));
    if let Some(seen) = result_of(given, sampled(schemes), bank, out) {
        push_report(&seen, out);
    }
}

/// Adds how many sites the program has that observes each visit.
pub(crate) fn push_compiled(text: &[u8], schemes: &str, out: &mut Page) {
    if let Some(program) = program_of(text, full(schemes), out) {
        out.debug(program.table().sites().len());
        out.say(" sites");
    }
}
