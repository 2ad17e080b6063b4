//! Runs of a program, or of its sampled one, and what is known of a program without a run.
ghost use Rattle.std.specs.Prelude.{◌≤◌, IfSome};

use cases_rows::{
    Page, block, expect, expect_rest, has_head, has_line, numbers_in, piece_of, rest_of,
};
use cbi_base::{Counts, Outcome, Work};
use countdown_bank::Bank;
use flow::{Node, Program, RunResult, predicate_count, predicate_name};
use machine::run;
use probes::{Probe, push_lines};
use program_file::read_program;
use sampling::{may_clone, sample};

/// The row's turns, where a run may have so many.
fn turns_of(row: &str) -> Option<u32>
    ensures { IfSome result (λ turns. turns ≤ 100000000) }
{
    match rest_of(row, "turns ").unwrap_or("").parse::<u32>() {
        Ok(turns) if turns <= 100_000_000 => Some(turns),
        _ => None,
    }
}

/// The row's bank.
fn bank_of(row: &str, told: &mut Page) -> Option<Bank> {
    match numbers_in(rest_of(row, "bank ").unwrap_or(""), told) {
        Some(numbers) => Bank::new(numbers),
        None => None,
    }
}

fn push_outcome(outcome: Outcome, came: &mut Page) {
    match outcome {
        Outcome::Ended { status } => {
            came.say("ended ");
            came.debug(status);
        }
        Outcome::Trapped { trap } => {
            came.say("trapped ");
            came.debug(trap);
        }
        Outcome::CutTurns => came.say("cut turns"),
        Outcome::CutOutput => came.say("cut output"),
    }
}

fn push_counts(counts: Counts, came: &mut Page) {
    if !came.is_empty() {
        came.say(", ");
    }
    came.number(counts.first);
    came.say(" ");
    came.number(counts.second);
    came.say(" ");
    came.number(counts.third);
}

fn push_work(work: Work, came: &mut Page) {
    came.number(work.fast);
    came.say(" ");
    came.number(work.slow);
    came.say(" ");
    came.number(work.tests);
}

fn expect_outcome(row: &str, outcome: Outcome, told: &mut Page) {
    let mut came = Page::new(told.alloc());
    push_outcome(outcome, &mut came);
    expect_rest(row, "outcome ", &came, told);
}

fn expect_counts(row: &str, counts: &[Counts], told: &mut Page) {
    let mut came = Page::new(told.alloc());
    for each in counts {
        push_counts(*each, &mut came);
    }
    expect_rest(row, "counts ", &came, told);
}

fn expect_work(row: &str, work: Work, told: &mut Page) {
    let mut came = Page::new(told.alloc());
    push_work(work, &mut came);
    expect_rest(row, "work ", &came, told);
}

fn expect_result(row: &str, came: &RunResult, told: &mut Page) {
    expect_outcome(row, came.outcome, told);
    expect(row, "output", came.output.as_slice(), told);
    expect_counts(row, came.counts.as_slice(), told);
    expect_work(row, came.work, told);
}

/// Tells the lines of the watchers where they aren't what the row says.
pub fn expect_lines(row: &str, probes: &Vec<Box<dyn Probe>>, told: &mut Page) {
    let mut text = Vec::new(told.alloc());
    told.done(push_lines(probes, &mut text));
    expect(row, "lines", text.as_slice(), told);
}

/// Runs the program on this input, with the watchers, and tells what of its result isn't as the row says.
fn tell_result(
    row: &str,
    program: &Program,
    bank: &mut Bank,
    input: &[u8],
    probes: &mut Vec<Box<dyn Probe>>,
    told: &mut Page,
) {
    let Some(turns) = turns_of(row) else {
        return told.say("\nno turns");
    };
    if input.len() > 16_777_216 {
        return told.say("\ntoo much input");
    }
    if let Some(result) = told.done(run(told.alloc(), program, input, bank, turns, probes)) {
        expect_result(row, &result, told);
    }
    expect_lines(row, probes, told);
}

fn tell_run(row: &str, program: &Program, probes: &mut Vec<Box<dyn Probe>>, told: &mut Page) {
    let Some(mut bank) = bank_of(row, told) else {
        return told.say("\nno bank");
    };
    let input = block(row, "input", "", told);
    tell_result(row, program, &mut bank, input.bytes(), probes, told);
}

fn push_skip(node: &Node, came: &mut Page) {
    if let Node::Skip { by, .. } = node {
        if !came.is_empty() {
            came.say(" ");
        }
        came.number(*by);
    }
}

fn push_skips(nodes: &[Node], came: &mut Page) {
    for node in nodes {
        push_skip(node, came);
    }
}

/// Tells by how much each node lowers the countdown that does, where the row says something else.
fn tell_skips(row: &str, program: &Program, told: &mut Page) {
    let mut came = Page::new(told.alloc());
    for function in program.functions() {
        push_skips(function.nodes.as_slice(), &mut came);
    }
    expect_rest(row, "skips ", &came, told);
}

fn push_predicate(program: &Program, predicate: u32, came: &mut Page) {
    if predicate < predicate_count(program.table()) {
        if let Some(name) = came.done(predicate_name(came.alloc(), program.table(), predicate)) {
            came.put(name.as_slice());
        }
    }
    came.say("\n");
}

fn tell_predicates(row: &str, program: &Program, told: &mut Page) {
    let mut came = Page::new(told.alloc());
    for predicate in 0..predicate_count(program.table()) {
        push_predicate(program, predicate, &mut came);
    }
    told.heed(&came);
    expect(row, "predicates", came.bytes(), told);
}

/// Tells what isn't as the row says of what it asks for.
fn tell_asked(row: &str, program: &Program, probes: &mut Vec<Box<dyn Probe>>, told: &mut Page) {
    if has_head(row, "outcome ") {
        tell_run(row, program, probes, told);
    }
    if has_head(row, "skips ") {
        tell_skips(row, program, told);
    }
    if has_head(row, "predicates") {
        tell_predicates(row, program, told);
    }
}

fn tell_sampled(row: &str, program: Program, probes: &mut Vec<Box<dyn Probe>>, told: &mut Page) {
    if !may_clone(&program) {
        return told.say("\nit may not be sampled");
    }
    if let Some(clone) = told.done(sample(told.alloc(), program)) {
        tell_asked(row, &clone, probes, told);
    }
}

/// Tells what isn't as the row says of its program, or that it has none.
pub fn tell_program(
    texts: &str,
    row: &str,
    rest: &str,
    probes: &mut Vec<Box<dyn Probe>>,
    told: &mut Page,
) {
    let file = piece_of(texts, row, "program", rest, told);
    match read_program(told.alloc(), file.bytes()) {
        Ok(program) if has_line(row, "sampled") => tell_sampled(row, program, probes, told),
        Ok(program) => tell_asked(row, &program, probes, told),
        Err(_) => told.say("\nno program"),
    }
}
