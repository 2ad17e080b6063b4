//! Collections that grow by reports and by one another, step by step.
ghost use Rattle.std.specs.Prelude.{◌≤◌, IfOk};
ghost use Rattle.report_file.specs.Report.{IsReport};

use crate::bytes::bytes_of;
use crate::finding::program;
use cases_rows::{Page, expect, expect_rest, has_any, has_head, has_line, rest_of};
use cbi_base::{Memory, Seq};
use collector::{Collection, read_collection, write_collection};
use flow::SiteTable;
use report_file::{Label, Report, read_report};
use std::alloc::Global;
use std::fmt::Debug;

/// Tells an answer where the step says another one.
fn expect_given<T: Debug + Drop>(step: &str, answer: T, told: &mut Page) {
    let mut came = Page::new(told.alloc());
    came.debug(answer);
    expect_rest(step, "gives ", &came, told);
}

/// A report of another run, which says the same.
fn of_run(alloc: Global, report: &Report, run: u32) -> Result<Report, Memory>
    requires report { IsReport report.now }
    requires run { 1 ≤ run }
    ensures { IfOk result IsReport }
{
    let entries = Vec::from_slice(alloc, report.entries.as_slice())?;
    Ok(Report {
        program: report.program,
        run,
        outcome: report.outcome,
        label: report.label,
        work: report.work,
        entries: Seq::from_vec(entries),
    })
}

/// Adds a report like this one of each of these runs.
fn add_each(step: &str, collection: &mut Collection, report: &Report, runs: u32, told: &mut Page)
    requires { IsReport report.now }
{
    for run in 1..=runs {
        match of_run(told.alloc(), report, run) {
            Ok(each) => expect_given(step, collection.add(each), told),
            Err(_) => told.want(),
        }
    }
}

/// Adds the step's report, or one like it of each of the runs 1 to N.
fn tell_add(step: &str, bytes: &[u8], collection: &mut Collection, told: &mut Page) {
    let Ok(report) = read_report(told.alloc(), bytes) else {
        return told.say("\nno report");
    };
    match rest_of(step, "add runs 1 to ").unwrap_or("").parse::<u32>() {
        Ok(runs) => add_each(step, collection, &report, runs, told),
        Err(_) => expect_given(step, collection.add(report), told),
    }
}

fn tell_merge(step: &str, bytes: &[u8], collection: &mut Collection, told: &mut Page) {
    match read_collection(told.alloc(), bytes) {
        Ok(bundle) => expect_given(step, collection.merge(bundle), told),
        Err(_) => told.say("\nno collection"),
    }
}

/// Tells the next report's run and label where they aren't the step's.
fn tell_next(step: &str, after: &str, collection: &Collection, told: &mut Page) {
    let mut came = Page::new(told.alloc());
    match collection.next_report(after.parse::<u32>().unwrap_or(0)) {
        Some(report) => {
            came.number(report.run);
            came.say(" ");
            came.debug(report.label);
        }
        None => came.say("none"),
    }
    expect_rest(step, "gives ", &came, told);
}

fn label_in(word: &str) -> Option<Label> {
    match word {
        "fail" => Some(Label::Fail),
        "pass" => Some(Label::Pass),
        "none" => Some(Label::Uncounted),
        _ => None,
    }
}

/// Gives a run another label, where the words are a run and a label.
fn relabel(words: &str, collection: &mut Collection) -> Option<bool> {
    let (run, label) = words.split_once(' ')?;
    let run = run.parse::<u32>().ok()?;
    let label = label_in(label)?;
    Some(collection.relabel(run, label))
}

fn expect_flag(step: &str, came: Option<bool>, told: &mut Page) {
    match came {
        Some(flag) => expect_given(step, flag, told),
        None => told.say("\nno run"),
    }
}

/// Does what the step says without a text.
fn tell_change(step: &str, collection: &mut Collection, told: &mut Page) {
    if let Some(after) = rest_of(step, "next ") {
        return tell_next(step, after, collection, told);
    }
    if let Some(words) = rest_of(step, "relabel ") {
        return expect_flag(step, relabel(words, collection), told);
    }
    match rest_of(step, "remove ").unwrap_or("").parse::<u32>() {
        Ok(run) => expect_given(step, collection.remove(run), told),
        Err(_) => told.say("\nnothing to do"),
    }
}

fn tell_written(step: &str, collection: &Collection, told: &mut Page) {
    if let Some(text) = told.done(write_collection(told.alloc(), collection)) {
        expect(step, "writes", text.as_slice(), told);
    }
}

fn tell_held(step: &str, collection: &Collection, told: &mut Page) {
    let mut came = Page::new(told.alloc());
    came.number(collection.reports_held());
    expect_rest(step, "holds ", &came, told);
}

/// Does what the step says, with its text.
fn tell_doing(step: &str, bytes: &[u8], collection: &mut Collection, told: &mut Page) {
    if has_head(step, "add") {
        tell_add(step, bytes, collection, told);
    } else if has_line(step, "merge") {
        tell_merge(step, bytes, collection, told);
    } else if has_head(step, "gives ") {
        tell_change(step, collection, told);
    } else if !has_any(step, &["holds ", "writes"]) {
        told.say("\na step asks for nothing");
    }
}

fn tell_step(texts: &str, step: &str, collection: &mut Collection, told: &mut Page) {
    let bytes = bytes_of(texts, step, "text", told);
    tell_doing(step, bytes.bytes(), collection, told);
    if has_head(step, "writes") {
        tell_written(step, collection, told);
    }
    tell_held(step, collection, told);
}

fn tell_each_step(texts: &str, row: &str, collection: &mut Collection, told: &mut Page) {
    for step in row.split("\nthen\n") {
        tell_step(texts, step, collection, told);
    }
}

/// Tells what doesn't come as the row says of its steps, over a collection of the program with this table.
pub fn tell_steps(texts: &str, row: &str, table: &SiteTable, told: &mut Page) {
    let Some(program) = program() else {
        return told.say("\nno collection");
    };
    if let Some(mut collection) = told.done(Collection::new(told.alloc(), program, table)) {
        tell_each_step(texts, row, &mut collection, told);
    }
}
