ghost use Rattle.std.specs.Prelude.{◌≡◌, ◌≤◌, IfOk, IfSome, OnOk, All};
ghost use Rattle.elimination_tallies.specs.Predicates.{predicates_in};
ghost use Rattle.elimination_tallies.specs.Recount.{failing_runs, recount, runs_of};
ghost use Rattle.elimination_tallies.specs.Tallies.{AreRecounts};
ghost use Rattle.fractions.specs.Fraction.{IsFraction};
ghost use Rattle.fractions.specs.Tally.{IsTally};
ghost use Rattle.compound.specs.declared.listing.Candidate.{Candidate};
ghost use Rattle.compound.specs.Listing.{AreListed, IsAdded, IsPlaceOf, IsRated, is_less, is_ranked_above};

use cbi_base::Memory;
use collector::Collection;
use compound_counts::failing_runs;
use elimination::TallyTable;
use fractions::{Fraction, Tally, compare, confident, importance};
use std::alloc::Global;
use std::cmp::Ordering;

/// The most candidates.
const MOST: usize = 1000;

/// A predicate, in how many failing runs it was true, and its importance, if it passes.
#[derive(Clone, Copy, Debug)]
pub struct Candidate {
    pub predicate: u32,
    pub failing: u32,
    pub rating: Option<Fraction>,
}

/// Whether the first of two values is less.
pub fn is_less(left: Fraction, right: Fraction) -> bool
    requires left { IsFraction left }
    requires right { IsFraction right }
    ensures { result ≡ is_less left right }
{
    compare(left, right) == Ordering::Less
}

/// The importance of a predicate or of a pair; None exactly where it doesn't pass.
pub fn rating(tally: Tally, failing: u32) -> Option<Fraction>
    requires tally { IsTally tally }
    requires observed { tally.c ≤ failing }
    requires failing { failing ≤ 100000 }
    ensures { IsRated tally failing result }
{
    if !confident(tally) {
        return None;
    }
    Some(importance(tally, failing))
}

// Whether a candidate ranks above another one.
fn outranks(left: Candidate, right: Candidate) -> bool
    requires left { IfSome left.rating IsFraction }
    requires right { IfSome right.rating IsFraction }
    ensures { result ≡ is_ranked_above left right }
{
    match (left.rating, right.rating) {
        (Some(left), Some(right)) => is_less(right, left),
        (Some(_), None) => true,
        (None, Some(_)) => false,
        (None, None) => left.failing > right.failing,
    }
}

// The place of a further candidate, behind those above which it doesn't rank.
fn place_of(list: &[Candidate], next: Candidate) -> usize
    requires list { All (λ (c : Candidate). IfSome c.rating IsFraction) list.now }
    requires next { IfSome next.rating IsFraction }
    ensures { IsPlaceOf list.now next result }
{
    let mut place = list.len();
    while place > 0 {
        if !outranks(next, list[place - 1]) {
            return place;
        }
        place -= 1;
    }
    place
}

// Lists a further candidate.
fn add(list: &mut Vec<Candidate>, next: Candidate) -> Result<(), Memory>
    requires list { All (λ (c : Candidate). IfSome c.rating IsFraction) list.old.items }
    requires next { IfSome next.rating IsFraction }
    ensures { OnOk result (IsAdded list.old.items next list.new.items) }
{
    let place = place_of(list.as_slice(), next);
    list.insert(place, next)?;
    list.truncate(MOST);
    Ok(())
}

/// The candidates, by the numbers of all predicates over the runs of the collection.
pub fn candidates(
    alloc: Global,
    collection: &Collection,
    tallies: &TallyTable,
) -> Result<Vec<Candidate>, Memory>
    requires { AreRecounts collection.now.branches (runs_of collection.now.reports) tallies.now }
    ensures { IfOk result (λ list. AreListed (recount collection.now.branches (runs_of collection.now.reports)) (predicates_in collection.now.branches)
        (failing_runs (runs_of collection.now.reports)) list.items) }
{
    let _held = collection.reports_held();
    let failing = failing_runs(collection);
    let mut list = Vec::new(alloc);
    for predicate in 0..tallies.predicates() {
        let tally = tallies.of(predicate);
        if tally.a == 0 {
            continue;
        }
        let next = Candidate {
            predicate,
            failing: tally.a,
            rating: rating(tally, failing),
        };
        add(&mut list, next)?;
    }
    Ok(list)
}
