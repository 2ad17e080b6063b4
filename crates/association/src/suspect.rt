ghost use Rattle.std.specs.Prelude.{◌≡◌, ◌+◌, ◌==◌, ◌&&◌, ◌||◌, ◌↔◌, ◌≤◌, nat_lt, IsTrue};
ghost use Rattle.association.specs.Order.{IsBetter, IsEarlier, IsOfRuns, rank_of, table_of};

use crate::contingency::{Contingency, compare_strengths};
use fractions::Tally;
use std::cmp::Ordering;

/// What a predicate speaks of: a condition, a returned value, or a variable beside a partner.
#[derive(Clone, Copy, Debug, PartialEq, Eq)]
pub enum Scheme {
    Branches,
    Returns,
    Pairs,
}

/// A predicate with its numbers over some runs, and where it stands: the number of its function, and its line.
#[derive(Clone, Copy, Debug, PartialEq, Eq)]
pub struct Suspect {
    pub predicate: u32,
    pub scheme: Scheme,
    pub function: u32,
    pub line: u32,
    pub tally: Tally,
}

// The place of a scheme among them.
fn rank(scheme: Scheme) -> u32
    ensures { result ≡ rank_of scheme }
{
    match scheme {
        Scheme::Branches => 0,
        Scheme::Returns => 1,
        Scheme::Pairs => 2,
    }
}

/// The 2x2 table of a predicate where so many runs fail and so many are successful.
pub fn table_of(failing: u32, successful: u32, suspect: &Suspect) -> Contingency
    ensures { result ≡ table_of failing successful suspect.now }
{
    Contingency {
        a: suspect.tally.a,
        b: suspect.tally.b,
        failing,
        successful,
    }
}

// Whether the first number is less, or the same where the rest decides.
fn is_less_or(left: u32, right: u32, rest: bool) -> bool
    ensures { result ≡ (nat_lt left right || ((left == right) && rest)) }
{
    left < right || (left == right && rest)
}

// Whether the first of two predicates that are as strong goes first.
fn is_earlier(one: &Suspect, other: &Suspect) -> bool
    requires one { one.now.tally.c + one.now.tally.d ≤ 100000 }
    requires other { other.now.tally.c + other.now.tally.d ≤ 100000 }
    ensures { IsTrue result ↔ IsEarlier one.now other.now }
{
    let number = one.predicate < other.predicate;
    let scheme = is_less_or(rank(one.scheme), rank(other.scheme), number);
    let (seen, also) = (one.tally.c + one.tally.d, other.tally.c + other.tally.d);
    let observed = is_less_or(also, seen, scheme);
    is_less_or(other.tally.a, one.tally.a, observed)
}

/// Whether the first of two predicates is better, where so many runs fail and so many are successful.
pub fn is_better(failing: u32, successful: u32, one: &Suspect, other: &Suspect) -> bool
    requires one { IsOfRuns failing successful one.now }
    requires other { IsOfRuns failing successful other.now }
    ensures { IsTrue result ↔ IsBetter failing successful one.now other.now }
{
    let table = table_of(failing, successful, one);
    let beside = table_of(failing, successful, other);
    match compare_strengths(beside, table) {
        Ordering::Less => true,
        Ordering::Equal => is_earlier(one, other),
        Ordering::Greater => false,
    }
}
