//! Collections of runs that are thrown by dice.
use crate::ranking_rows::tell_eliminations;
use cases_rows::{Page, rest_of};
use flow::SiteTable;

/// The first lines of a collection.
const TITLE: &str =
    "cbi-collection 2\nprogram e3b0c44298fc1c149afbf4c8996fb92427ae41e4649b934ca495991b7852b855\n";

/// How many runs a collection has.
const RUNS: u32 = 60;

/// Numbers by a linear congruence.
#[derive(Clone, Copy)]
struct Dice {
    state: u64,
}

impl Dice {
    fn below(&mut self, most: u32) -> u32 {
        self.state = self
            .state
            .wrapping_mul(6364136223846793005)
            .wrapping_add(1442695040888963407);
        let high = (self.state >> 33) as u32;
        if most == 0 { 0 } else { high % most }
    }
}

/// What a run saw at each of four sites: a branch, a returned value, a pair and a branch.
#[derive(Clone, Copy)]
struct Sides {
    truth: u32,
    sign: u32,
    pair: u32,
    last: u32,
}

fn throw(dice: &mut Dice) -> Sides {
    Sides {
        truth: dice.below(3),
        sign: dice.below(4),
        pair: dice.below(4),
        last: dice.below(3),
    }
}

/// A run fails mostly where the first condition was true or the returned value above zero, and sometimes for no reason.
fn label_of(dice: &mut Dice, sides: Sides) -> &'static str {
    let fails = (sides.truth == 0 || sides.sign == 2) && dice.below(5) > 0 || dice.below(10) == 0;
    if dice.below(12) == 0 {
        "none"
    } else if fails {
        "fail"
    } else {
        "pass"
    }
}

/// The counters of a site on this side; nothing where it isn't observed.
fn counts_of(side: u32, is_branch: bool) -> Option<&'static str> {
    match side {
        0 => Some(" 1 0 0\n"),
        1 => Some(" 0 1 0\n"),
        2 if !is_branch => Some(" 0 0 1\n"),
        _ => None,
    }
}

fn push_site(name: &str, side: u32, is_branch: bool, text: &mut Page) {
    if let Some(counts) = counts_of(side, is_branch) {
        text.say(name);
        text.say(counts);
    }
}

fn push_run(run: u32, dice: &mut Dice, text: &mut Page) {
    let sides = throw(dice);
    let label = label_of(dice, sides);
    text.say("run ");
    text.number(run);
    text.say(" ended 0 label ");
    text.say(label);
    text.say(" work 0 0 0\n");
    push_site("site 0", sides.truth, true, text);
    push_site("site 1", sides.sign, false, text);
    push_site("site 2", sides.pair, false, text);
    push_site("site 3", sides.last, true, text);
}

/// Tells where the eliminations of a collection of thrown runs differ from the reference; how many of them list several leaders.
fn tell_round(row: &str, table: &SiteTable, dice: &mut Dice, told: &mut Page) -> u32 {
    let mut text = Page::new(told.alloc());
    text.say(TITLE);
    for run in 1..=RUNS {
        push_run(run, dice, &mut text);
    }
    text.say("end\n");
    told.heed(&text);
    tell_eliminations(row, table, text.bytes(), told)
}

fn numbers_of(words: &str) -> Option<(u64, u32)> {
    let (seed, rounds) = words.split_once(' ')?;
    Some((seed.parse::<u64>().ok()?, rounds.parse::<u32>().ok()?))
}

/// Tells where the eliminations of thrown runs differ from the reference, or fewer of them than the row says list several leaders.
pub fn tell_thrown(row: &str, table: &SiteTable, words: &str, told: &mut Page) {
    let Some((state, rounds)) = numbers_of(words) else {
        return told.say("\nno throws");
    };
    let mut dice = Dice { state };
    let mut several = 0u32;
    for _ in 0..rounds {
        several = several.saturating_add(tell_round(row, table, &mut dice, told));
    }
    match rest_of(row, "several from ").unwrap_or("").parse::<u32>() {
        Ok(due) if due <= several => (),
        _ => {
            told.say("\nseveral ");
            told.number(several);
        }
    }
}
