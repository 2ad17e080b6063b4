//! A row: the sites and runs that it gives, and what must come of them.
use crate::finding::tell_pairs;
use crate::made::made_of;
use crate::thrown::tell_thrown;
use cases_rows::{
    Answers, Head, Page, Place, Rest, Rows, bad_line, expect_values, has_any, has_line, numbers_in,
    rest_of,
};
use compound::bound;

/// The lines of a row.
///
/// - `sites KIND..`: the sites of the program, `branch` or `return`. They stand in the function `main`, the first on line 1, the next on line 2, and so on.
/// - `runs COUNT LABEL SAW..`: so many runs, which are `fail`, `pass` or `none` and saw the same: of each site `-` where it wasn't observed, `t` or `f` or `tf`
///   of a branch, and some of `l`, `e` and `g` of a returned value that was below, at or above zero. A word `X*N` stands for N words X.
/// - `found`: the text of the best pair, which a plain body finds too.
/// - `throws SEED COUNT RUNS`: so many collections of so many thrown runs, of each of which the plain body finds the same. In at least so many of them
/// some pair
///   is skipped (`skipping from N`), and several pairs are the most important (`equal from N`).
/// - `value bound LEFT RIGHT FAILING is TOP/BOTTOM`.
const FORM: [Head; 7] = [
    ("sites ", Rest::Some, Place::Given),
    ("runs ", Rest::Some, Place::Given),
    ("found", Rest::Way, Place::Any),
    ("throws ", Rest::Numbers, Place::Given),
    ("skipping from ", Rest::Number, Place::Any),
    ("equal from ", Rest::Number, Place::Any),
    ("value ", Rest::Some, Place::Any),
];

/// What must come.
const DUE: [&str; 3] = ["found", "throws ", "value "];

/// Adds the bound of a pair; whether there may be such a pair.
fn answer_bound(numbers: &[u32], came: &mut Page) -> bool {
    let [left, right, failing] = *numbers else {
        return false;
    };
    if left == 0 || right == 0 || left > failing || right > failing || failing > 100_000 {
        return false;
    }
    let most = bound(left, right, failing);
    came.number(most.top);
    came.say("/");
    came.number(most.bottom);
    true
}

/// The rows of pairs.
pub struct PairRows;

impl Answers for PairRows {
    fn answer(&self, question: &str, came: &mut Page) -> bool {
        let Some(words) = question.strip_prefix("bound ") else {
            return false;
        };
        match numbers_in(words, came) {
            Some(numbers) => answer_bound(numbers.as_slice(), came),
            None => false,
        }
    }
}

impl Rows for PairRows {
    /// Something must come.
    fn unread<'a>(&self, texts: &str, row: &'a str) -> Option<&'a str> {
        match bad_line(&FORM, texts, row) {
            None if !has_any(row, &DUE) => Some("it asks for nothing"),
            bad => bad,
        }
    }

    fn tell(&self, _rt: &HostRuntime, _texts: &str, row: &str, told: &mut Page) {
        expect_values(self, row, told);
        let Some(made) = made_of(row, told) else {
            return;
        };
        if has_line(row, "found") {
            tell_pairs(row, &made, told);
        }
        if let Some(words) = rest_of(row, "throws ") {
            tell_thrown(row, &made, words, told);
        }
    }
}
