//! The numbers of rankings, and whether numbers are a bank's.
use cases_rows::{Page, numbers_in};
use countdown_bank::Bank;
use fractions::{Fraction, Tally, compare, confident, importance, log_fixed, millionths};

/// Adds the importance in millionths of a tally that passes, where so many runs fail; whether there may be such a tally.
fn score(tally: Tally, failing: u32, came: &mut Page) -> bool {
    let Tally { a, b, c, d } = tally;
    if a > c || b > d || c > failing || d > 50_000 || failing > 50_000 {
        return false;
    }
    if confident(tally) {
        came.number(millionths(importance(tally, failing)));
    } else {
        came.say("none");
    }
    true
}

fn compared(left: [u32; 2], right: [u32; 2], came: &mut Page) -> bool {
    let ([top, bottom], [other_top, other_bottom]) = (left, right);
    if bottom == 0 || other_bottom == 0 {
        return false;
    }
    let left = Fraction {
        top: u128::from(top),
        bottom: u128::from(bottom),
    };
    let right = Fraction {
        top: u128::from(other_top),
        bottom: u128::from(other_bottom),
    };
    came.debug(compare(left, right));
    true
}

fn share(top: u32, bottom: u32, came: &mut Page) -> bool {
    if bottom == 0 || top > bottom {
        return false;
    }
    let value = Fraction {
        top: u128::from(top),
        bottom: u128::from(bottom),
    };
    came.number(millionths(value));
    true
}

fn logarithm(n: u32, came: &mut Page) -> bool {
    if n == 0 || n > 100_000 {
        return false;
    }
    came.number(log_fixed(n));
    true
}

/// Adds the answer to a question about these numbers; whether it is one.
fn of_numbers(word: &str, numbers: &[u32], came: &mut Page) -> bool {
    match (word, numbers) {
        ("logarithm", [n]) => logarithm(*n, came),
        ("millionths", [top, bottom]) => share(*top, *bottom, came),
        ("compare", [a, b, c, d]) => compared([*a, *b], [*c, *d], came),
        ("importance", [a, b, c, d, failing]) => {
            let tally = Tally {
                a: *a,
                b: *b,
                c: *c,
                d: *d,
            };
            score(tally, *failing, came)
        }
        _ => false,
    }
}

fn bank(numbers: Vec<u32>, came: &mut Page) -> bool {
    came.say(match Bank::new(numbers) {
        Some(_) => "some",
        None => "none",
    });
    true
}

/// Adds the answer to a question; whether it is one.
pub fn answer(question: &str, came: &mut Page) -> bool {
    let (word, words) = question.split_once(' ').unwrap_or((question, ""));
    match numbers_in(words, came) {
        Some(numbers) if word == "bank" => bank(numbers, came),
        Some(numbers) => of_numbers(word, numbers.as_slice(), came),
        None => false,
    }
}
