//! Runs that a row makes.
use cases_rows::{Page, rest_of};
use report_file::Label;
use std::alloc::Global;

/// What a run saw of a site: whether each of its three counters is above 0.
#[derive(Clone, Copy, Debug, PartialEq, Eq)]
pub struct Saw {
    pub first: bool,
    pub second: bool,
    pub third: bool,
}

/// The sites of a program and runs of it: of each site whether it is a branch, of each run its label, and run by run what it saw of each site.
#[derive(Drop)]
pub struct Made {
    pub branches: Vec<bool>,
    pub labels: Vec<Label>,
    pub saw: Vec<Saw>,
}

impl Made {
    /// No runs.
    pub fn new(alloc: Global) -> Made {
        Made {
            branches: Vec::new(alloc),
            labels: Vec::new(alloc),
            saw: Vec::new(alloc),
        }
    }

    /// What a run saw of a site; None where it didn't observe it.
    pub fn saw_of(&self, run: usize, site: usize) -> Option<Saw> {
        let place = run.saturating_mul(self.branches.len()).saturating_add(site);
        match self.saw.get(place) {
            Some(saw) if saw.first || saw.second || saw.third => Some(*saw),
            _ => None,
        }
    }
}

/// A word, and how often it is meant.
fn times_of(word: &str) -> (&str, u32) {
    match word.split_once('*') {
        Some((one, times)) => (one, times.parse::<u32>().unwrap_or(0)),
        None => (word, 1),
    }
}

fn label_of(word: &str) -> Option<Label> {
    match word {
        "fail" => Some(Label::Fail),
        "pass" => Some(Label::Pass),
        "none" => Some(Label::Uncounted),
        _ => None,
    }
}

/// Adds a site so often.
fn push_site(word: &str, made: &mut Made, told: &mut Page) {
    let (kind, times) = times_of(word);
    if kind != "branch" && kind != "return" {
        told.say("\nno kind of site");
    }
    for _site in 0..times {
        told.done(made.branches.push(kind == "branch"));
    }
}

/// Adds what a run saw of so many sites.
fn push_saw(word: &str, made: &mut Made, told: &mut Page) {
    let (letters, times) = times_of(word);
    let saw = Saw {
        first: letters.contains('t') || letters.contains('l'),
        second: letters.contains('f') || letters.contains('e'),
        third: letters.contains('g'),
    };
    for _site in 0..times {
        told.done(made.saw.push(saw));
    }
}

fn push_run(label: Label, words: &str, made: &mut Made, told: &mut Page) {
    told.done(made.labels.push(label));
    for word in words.split(' ') {
        push_saw(word, made, told);
    }
}

/// The count, the label and what was seen, of a line of runs.
fn runs_in(line: &str) -> Option<(u32, Label, &str)> {
    let (count, rest) = line.split_once(' ')?;
    let (label, words) = rest.split_once(' ')?;
    Some((count.parse::<u32>().ok()?, label_of(label)?, words))
}

fn push_runs(line: &str, made: &mut Made, told: &mut Page) {
    let Some((count, label, words)) = runs_in(line) else {
        return told.say("\nno runs");
    };
    for _run in 0..count {
        push_run(label, words, made, told);
    }
}

/// The sites and runs that a row gives; None where it gives no sites.
pub fn made_of(row: &str, told: &mut Page) -> Option<Made> {
    let sites = rest_of(row, "sites ")?;
    let mut made = Made::new(told.alloc());
    for word in sites.split(' ') {
        push_site(word, &mut made, told);
    }
    for line in row.split('\n') {
        if let Some(runs) = line.strip_prefix("runs ") {
            push_runs(runs, &mut made, told);
        }
    }
    if made.saw.len() != made.labels.len().saturating_mul(made.branches.len()) {
        told.say("\na run is of other sites");
    }
    Some(made)
}
