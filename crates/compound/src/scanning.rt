ghost use Rattle.std.specs.Prelude.{◌≡◌, ◌+◌, ◌<◌, ◌≤◌, ◌^◌, ℕ, [], ◌∷◌, ◌++◌, List, length, option_map, IfOk, IfSome};
ghost use Rattle.collector.specs.Sites.{branches_of};
ghost use Rattle.elimination_tallies.specs.Predicates.{predicates_in};
ghost use Rattle.elimination_tallies.specs.Recount.{failing_runs, recount, runs_of};
ghost use Rattle.elimination_tallies.specs.Tallies.{AreRecounts};
ghost use Rattle.fractions.specs.declared.tally.Tally.{Tally};
ghost use Rattle.fractions.specs.Fraction.{IsFraction};
ghost use Rattle.fractions.specs.Tally.{IsTally};
ghost use Rattle.compound_counts.specs.Numbers.{numbers_at};
ghost use Rattle.compound_counts.specs.Truth.{pair_recount};
ghost use Rattle.compound.specs.declared.scanning.Best.{Best};
ghost use Rattle.compound.specs.Found.{ArePairsScanned};
ghost use Rattle.compound.specs.Listing.{AreListed, candidate_predicates};
ghost use Rattle.compound.specs.Pairs.{pairs_of};
ghost use Rattle.compound.specs.Scanning.{IsPairTally, IsScan};
ghost use Rattle.compound.specs.Steps.{IsWeighed, better_pair, is_passed_over};

use crate::chosen::{Chosen, PairResult};
use crate::listing::{Candidate, is_less, rating};
use crate::pair_bound::bound;
use crate::places::place_pairs;
use cbi_base::Memory;
use collector::Collection;
use compound_counts::{PairCounter, failing_runs};
use elimination::TallyTable;
use flow::SiteTable;
use fractions::{Fraction, Tally};
use std::alloc::Global;

/// A passing pair and its importance.
#[derive(Clone, Copy)]
struct Best {
    chosen: Chosen,
    importance: Fraction,
}

/// How many pairs were counted and skipped, and the best so far.
#[derive(Clone, Copy)]
struct Scan {
    counted: u64,
    skipped: u64,
    best: Option<Best>,
}

// Whether a pair with this bound can't be more important than the best so far, nor as important.
fn is_passed_over(best: Option<Best>, bound: Fraction) -> bool
    requires best { IfSome best (λ (b : Best). IsFraction b.importance) }
    requires bound { IsFraction bound }
    ensures { result ≡ is_passed_over best bound }
{
    match best {
        None => false,
        Some(best) => is_less(bound, best.importance),
    }
}

// The better of the best so far and a further pair, the earlier one where they are equal.
fn better(best: Option<Best>, next: Option<Best>) -> Option<Best>
    requires best { IfSome best (λ (b : Best). IsFraction b.importance) }
    requires next { IfSome next (λ (b : Best). IsFraction b.importance) }
    ensures { result ≡ better_pair best next }
{
    let Some(second) = next else {
        return best;
    };
    let Some(first) = best else {
        return next;
    };
    if is_less(first.importance, second.importance) {
        next
    } else {
        best
    }
}

// A pair with its importance; None exactly where it doesn't pass.
fn weighed(chosen: Chosen) -> Option<Best>
    requires tally { IsTally chosen.tally }
    requires observed { chosen.tally.c ≤ chosen.failing }
    requires failing { chosen.failing ≤ 100000 }
    ensures { IsWeighed chosen result }
{
    match rating(chosen.tally, chosen.failing) {
        None => None,
        Some(importance) => Some(Best { chosen, importance }),
    }
}

// The scan with one more pair, that of the candidates at two places.
fn look(
    scan: Scan,
    counter: &PairCounter,
    places: (u32, u32),
    left: Candidate,
    right: Candidate,
    failing: u32,
) -> Scan
    requires left_place { places.0 < length counter.now.failing }
    requires right_place { places.1 < length counter.now.failing }
    requires left { (1 ≤ left.failing) × (left.failing ≤ failing) }
    requires right { (1 ≤ right.failing) × (right.failing ≤ failing) }
    requires failing { failing ≤ 100000 }
    requires tally { IsPairTally (numbers_at counter.now places.0 places.1) left.failing right.failing failing }
    requires best { IfSome scan.best (λ (b : Best). IsFraction b.importance) }
    requires room { scan.counted + scan.skipped < 2 ^ 32 }
    ensures scan { (one : ℕ → Tally) (pair : ℕ → ℕ → Tally) (done : List (ℕ × ℕ)) → left.failing ≡ (one left.predicate).a
        → right.failing ≡ (one right.predicate).a
        → numbers_at counter.now places.0 places.1 ≡ pair left.predicate right.predicate → IsScan one pair failing done scan
        → IsScan one pair failing (done ++ (left.predicate, right.predicate) ∷ []) result }
    ensures one_more { result.counted + result.skipped ≡ scan.counted + scan.skipped + 1 }
{
    let most = bound(left.failing, right.failing, failing);
    if is_passed_over(scan.best, most) {
        return Scan {
            counted: scan.counted,
            skipped: scan.skipped + 1,
            best: scan.best,
        };
    }
    let next = weighed(Chosen {
        left: left.predicate,
        right: right.predicate,
        tally: counter.tally(places.0 as usize, places.1 as usize),
        failing,
    });
    Scan {
        counted: scan.counted + 1,
        skipped: scan.skipped,
        best: better(scan.best, next),
    }
}

fn predicates_of(alloc: Global, candidates: &[Candidate]) -> Result<Vec<u32>, Memory>
    ensures { IfOk result (λ predicates. predicates.items ≡ candidate_predicates candidates.now) }
{
    let mut predicates = Vec::new(alloc);
    let mut rest = candidates;
    while let [candidate, after @ ..] = rest {
        predicates.push(candidate.predicate)?;
        rest = after;
    }
    Ok(predicates)
}

// What the scan of all pairs found.
fn found(scan: Scan, pairs: usize) -> PairResult
    ensures pairs { result.pairs ≡ pairs }
    ensures counted { result.counted ≡ scan.counted }
    ensures skipped { result.skipped ≡ scan.skipped }
    ensures best { result.best ≡ option_map (λ (b : Best). b.chosen) scan.best }
{
    let best = match scan.best {
        None => None,
        Some(best) => Some(best.chosen),
    };
    PairResult {
        pairs: pairs as u64,
        counted: scan.counted,
        skipped: scan.skipped,
        best,
    }
}

/// The best pair of the candidates over the runs of the collection.
pub fn scan_pairs(
    alloc: Global,
    collection: &Collection,
    table: &SiteTable,
    tallies: &TallyTable,
    candidates: &[Candidate],
) -> Result<PairResult, Memory>
    requires table { collection.now.branches ≡ branches_of table.now.sites }
    requires tallies { AreRecounts collection.now.branches (runs_of collection.now.reports) tallies.now }
    requires candidates { AreListed (recount collection.now.branches (runs_of collection.now.reports)) (predicates_in collection.now.branches)
        (failing_runs (runs_of collection.now.reports)) candidates.now }
    ensures { IfOk result (ArePairsScanned (recount collection.now.branches (runs_of collection.now.reports))
        (pair_recount collection.now.branches (runs_of collection.now.reports))
        (failing_runs (runs_of collection.now.reports)) (pairs_of (candidate_predicates candidates.now))) }
{
    let _held = collection.reports_held();
    let failing = failing_runs(collection);
    let pairs = place_pairs(alloc, candidates.len() as u32)?;
    let predicates = predicates_of(alloc, candidates)?;
    let counter = PairCounter::new(alloc, collection, table, tallies, predicates.as_slice())?;
    let mut scan = Scan {
        counted: 0,
        skipped: 0,
        best: None,
    };
    for places in pairs.as_slice() {
        let left = candidates[places.0 as usize];
        let right = candidates[places.1 as usize];
        scan = look(scan, &counter, *places, left, right, failing);
    }
    Ok(found(scan, pairs.len()))
}
