//! Runs that are thrown by dice.
use crate::finding::tell_pairs;
use crate::made::{Made, Saw};
use cases_rows::{Page, numbers_in, rest_of};
use rand_core::utils::NextWord;
use rand_pcg::Lcg64Xsh32;
use report_file::Label;

fn below(dice: &mut Lcg64Xsh32, most: u32) -> u32 {
    let word = dice.next_word();
    if most == 0 { 0 } else { word % most }
}

/// What a run saw of a site: mostly one of its sides, sometimes several or none.
fn throw_saw(dice: &mut Lcg64Xsh32, branch: bool) -> Saw {
    let sides = below(dice, 8);
    let third = below(dice, 2) == 1;
    Saw {
        first: sides == 0 || sides == 1 || sides == 2,
        second: sides == 2 || sides == 3 || sides == 4,
        third: !branch && third && sides > 2,
    }
}

/// A run fails mostly where the first two sites were both on their first side, and sometimes for no reason.
fn label_of(dice: &mut Lcg64Xsh32, made: &Made, run: usize) -> Label {
    let both = match (made.saw_of(run, 0), made.saw_of(run, 1)) {
        (Some(one), Some(other)) => one.first && other.first,
        _ => false,
    };
    let chance = below(dice, 8);
    if below(dice, 12) == 0 {
        Label::Uncounted
    } else if both && chance > 0 || chance == 1 {
        Label::Fail
    } else {
        Label::Pass
    }
}

fn push_run(dice: &mut Lcg64Xsh32, thrown: &mut Made, told: &mut Page) {
    let run = thrown.labels.len();
    for site in 0..thrown.branches.len() {
        let branch = thrown.branches[site];
        told.done(thrown.saw.push(throw_saw(dice, branch)));
    }
    let label = label_of(dice, thrown, run);
    told.done(thrown.labels.push(label));
}

/// So many thrown runs of these sites.
fn throw(dice: &mut Lcg64Xsh32, branches: &[bool], runs: u32, told: &mut Page) -> Made {
    let mut thrown = Made::new(told.alloc());
    told.done(thrown.branches.extend_from_slice(branches));
    for _run in 0..runs {
        push_run(dice, &mut thrown, told);
    }
    thrown
}

/// In how many collections some pair was skipped, and in how many several pairs were the most important.
#[derive(Clone, Copy)]
struct Rounds {
    skipping: u32,
    equal: u32,
}

impl Rounds {
    /// One more collection.
    fn throw(&mut self, row: &str, dice: &mut Lcg64Xsh32, made: &Made, runs: u32, told: &mut Page) {
        let thrown = throw(dice, made.branches.as_slice(), runs, told);
        let found = tell_pairs(row, &thrown, told);
        if found.result.skipped > 0 {
            self.skipping = self.skipping.saturating_add(1);
        }
        if found.equals > 1 {
            self.equal = self.equal.saturating_add(1);
        }
    }
}

/// Tells a number that isn't as great as the row says.
fn expect_from(row: &str, head: &str, number: u32, told: &mut Page) {
    match rest_of(row, head).unwrap_or("0").parse::<u32>() {
        Ok(due) if due <= number => (),
        _ => {
            told.say("\n");
            told.say(head);
            told.number(number);
        }
    }
}

/// Tells where the plain body finds something else over thrown runs, or fewer of the collections than the row says have skipped pairs or equal ones.
pub fn tell_thrown(row: &str, made: &Made, words: &str, told: &mut Page) {
    let numbers = numbers_in(words, told);
    let Some([seed, count, runs]) = numbers.as_deref() else {
        return told.say("\nno throws");
    };
    let mut dice = Lcg64Xsh32::new(u64::from(*seed), 1);
    let mut rounds = Rounds {
        skipping: 0,
        equal: 0,
    };
    for _round in 0..*count {
        rounds.throw(row, &mut dice, made, *runs, told);
    }
    expect_from(row, "skipping from ", rounds.skipping, told);
    expect_from(row, "equal from ", rounds.equal, told);
}
