//! The best pair by its definition: each predicate and each pair is counted anew from all runs, nothing is passed over, and the candidates are picked one
//! by one.
use crate::formulas::{Share, bound, importance, is_less};
use crate::made::{Made, Saw};
use cases_rows::Page;
use compound::{Chosen, PairResult};
use fractions::Tally;
use report_file::Label;
use std::alloc::Global;

/// The most candidates.
const MOST: u32 = 1000;

/// A predicate: its site, whether that is a branch, its number there, and its numbers over the runs.
#[derive(Clone, Copy)]
struct Rated {
    predicate: u32,
    site: usize,
    branch: bool,
    number: u32,
    failing: u32,
    importance: Option<Share>,
}

/// What was found so far: the importance of the best pair, and how many pairs have it.
#[derive(Clone, Copy)]
pub struct Found {
    pub result: PairResult,
    most: Share,
    pub equals: u32,
}

/// Whether what was seen of its site makes a predicate true.
fn is_true(branch: bool, number: u32, saw: Saw) -> bool {
    match (branch, number) {
        (true, 0) | (false, 0) => saw.first,
        (true, _) | (false, 4) => saw.second,
        (false, 1) => saw.first || saw.second,
        (false, 2) => saw.third,
        (false, 3) => saw.second || saw.third,
        (false, _) => saw.first || saw.third,
    }
}

/// Whether the predicate is true in the run or false; None where it is unknown.
fn truth(made: &Made, run: usize, predicate: Rated) -> Option<bool> {
    let saw = made.saw_of(run, predicate.site)?;
    Some(is_true(predicate.branch, predicate.number, saw))
}

/// Whether both are true, or one of them is false; None where it is unknown.
fn truth_of_pair(made: &Made, run: usize, left: Rated, right: Rated) -> Option<bool> {
    match (truth(made, run, left), truth(made, run, right)) {
        (Some(false), _) | (_, Some(false)) => Some(false),
        (Some(true), Some(true)) => Some(true),
        _ => None,
    }
}

/// The numbers with one more run of this label.
fn counted(tally: Tally, label: Label, truth: bool) -> Tally {
    let one = u32::from(truth);
    match label {
        Label::Fail => Tally {
            a: tally.a.saturating_add(one),
            c: tally.c.saturating_add(1),
            ..tally
        },
        Label::Pass => Tally {
            b: tally.b.saturating_add(one),
            d: tally.d.saturating_add(1),
            ..tally
        },
        Label::Uncounted => tally,
    }
}

/// The numbers of a pair over all runs. Those of a predicate with itself are its own.
fn recount(made: &Made, left: Rated, right: Rated) -> Tally {
    let mut tally = Tally {
        a: 0,
        b: 0,
        c: 0,
        d: 0,
    };
    for (run, label) in made.labels.iter().enumerate() {
        if let Some(truth) = truth_of_pair(made, run, left, right) {
            tally = counted(tally, *label, truth);
        }
    }
    tally
}

fn failing_runs(made: &Made) -> u32 {
    let mut failing = 0u32;
    for label in made.labels.as_slice() {
        if *label == Label::Fail {
            failing = failing.saturating_add(1);
        }
    }
    failing
}

/// A predicate with its numbers.
fn with_numbers(made: &Made, failing: u32, bare: Rated) -> Rated {
    let tally = recount(made, bare, bare);
    Rated {
        failing: tally.a,
        importance: importance(tally, failing),
        ..bare
    }
}

/// Adds the predicates of a site that were true in a failing run; the number of the next site's first one.
fn push_site(
    made: &Made,
    failing: u32,
    site: (usize, bool),
    first: u32,
    rest: &mut Vec<Rated>,
    told: &mut Page,
) -> u32 {
    let (site, branch) = site;
    let width = if branch { 2 } else { 6 };
    for number in 0..width {
        let bare = Rated {
            predicate: first.saturating_add(number),
            site,
            branch,
            number,
            failing: 0,
            importance: None,
        };
        let next = with_numbers(made, failing, bare);
        if next.failing > 0 {
            told.done(rest.push(next));
        }
    }
    first.saturating_add(width)
}

/// The predicates that were true in a failing run.
fn rated_predicates(made: &Made, failing: u32, told: &mut Page) -> Vec<Rated> {
    let mut rest = Vec::new(told.alloc());
    let mut first = 0u32;
    for (site, branch) in made.branches.iter().enumerate() {
        first = push_site(made, failing, (site, *branch), first, &mut rest, told);
    }
    rest
}

/// Whether the first of two comes before the second.
fn comes_before(left: Rated, right: Rated) -> bool {
    let (higher, lower) = match (left.importance, right.importance) {
        (Some(one), Some(other)) => (is_less(other, one), is_less(one, other)),
        (one, other) if one.is_some() != other.is_some() => (one.is_some(), other.is_some()),
        _ => (left.failing > right.failing, left.failing < right.failing),
    };
    higher || !lower && left.predicate < right.predicate
}

/// The place of the one that comes first of all.
fn first_of(rest: &[Rated]) -> Option<usize> {
    let mut first: Option<(usize, Rated)> = None;
    for (place, next) in rest.iter().enumerate() {
        match first {
            Some((_, best)) if !comes_before(*next, best) => (),
            _ => first = Some((place, *next)),
        }
    }
    let (place, _) = first?;
    Some(place)
}

fn candidates(made: &Made, failing: u32, told: &mut Page) -> Vec<Rated> {
    let mut rest = rated_predicates(made, failing, told);
    let mut list = Vec::new(told.alloc());
    for _candidate in 0..MOST {
        let Some(place) = first_of(rest.as_slice()) else {
            return list;
        };
        if place < rest.len() {
            told.done(list.push(rest.remove(place)));
        }
    }
    list
}

impl Found {
    /// Looks at one more pair.
    fn look(&mut self, made: &Made, failing: u32, left: Rated, right: Rated) {
        let has_best = self.result.best.is_some();
        let result = &mut self.result;
        result.pairs = result.pairs.saturating_add(1);
        if has_best && is_less(bound(left.failing, right.failing, failing), self.most) {
            result.skipped = result.skipped.saturating_add(1);
        } else {
            result.counted = result.counted.saturating_add(1);
        }
        let tally = recount(made, left, right);
        let Some(importance) = importance(tally, failing) else {
            return;
        };
        if !has_best || is_less(self.most, importance) {
            self.most = importance;
            self.equals = 1;
            result.best = Some(Chosen {
                left: left.predicate,
                right: right.predicate,
                tally,
                failing,
            });
        } else if !is_less(importance, self.most) {
            self.equals = self.equals.saturating_add(1);
        }
    }

    /// Looks at the pairs of one with each later one.
    fn look_behind(&mut self, made: &Made, failing: u32, list: &[Rated]) {
        let [left, later @ ..] = list else {
            return;
        };
        for right in later {
            self.look(made, failing, *left, *right);
        }
    }
}

/// What is found of the pairs of made runs.
pub fn plain_pairs(made: &Made, told: &mut Page) -> Found {
    let failing = failing_runs(made);
    let list = candidates(made, failing, told);
    let mut found = Found {
        result: PairResult {
            pairs: 0,
            counted: 0,
            skipped: 0,
            best: None,
        },
        most: (0, 1),
        equals: 0,
    };
    for place in 0..list.len() {
        found.look_behind(made, failing, &list[place..]);
    }
    found
}
