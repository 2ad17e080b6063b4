ghost use Rattle.std.specs.Prelude.{◌≡◌, ◌⊎◌, ◌+◌, nat_le, [], All, IfOk, IfSome, IfNone};
ghost use Rattle.association.specs.Order.{IsBetter, IsOfRuns};
ghost use Rattle.suspicious_lines.specs.Listing.{AreListed, IsBest, apart_from, are_near};

use crate::totals::Totals;
use association::{Suspect, is_better};
use cbi_base::Memory;
use std::alloc::Global;

// Whether the first line is at most so many above the second.
fn is_at_most_above(apart: u32, one: u32, other: u32) -> bool
    ensures { result ≡ nat_le one (other + apart) }
{
    u64::from(one) <= u64::from(other) + u64::from(apart)
}

// Whether two suspects stand in one function, at most so many lines apart.
fn are_near(apart: u32, one: &Suspect, other: &Suspect) -> bool
    ensures { result ≡ are_near apart one.now other.now }
{
    let above = is_at_most_above(apart, one.line, other.line);
    let below = is_at_most_above(apart, other.line, one.line);
    one.function == other.function && (above && below)
}

// The better of two suspects.
fn better(totals: Totals, best: Suspect, next: Suspect) -> Suspect
    requires best { IsOfRuns totals.failing totals.successful best }
    requires next { IsOfRuns totals.failing totals.successful next }
    ensures { ((result ≡ best) × (IsBetter totals.failing totals.successful next best → ⊥))
        ⊎ ((result ≡ next) × IsBetter totals.failing totals.successful next best) }
{
    if is_better(totals.failing, totals.successful, &next, &best) {
        return next;
    }
    best
}

// The best of these suspects; None exactly where there are none.
fn best_of(totals: Totals, suspects: &[Suspect]) -> Option<Suspect>
    requires { All (IsOfRuns totals.failing totals.successful) suspects.now }
    ensures none { IfNone result (suspects.now ≡ []) }
    ensures some { IfSome result (IsBest totals.failing totals.successful suspects.now) }
{
    if suspects.is_empty() {
        return None;
    }
    let mut best = suspects[0];
    for next in suspects {
        best = better(totals, best, *next);
    }
    Some(best)
}

// Those that aren't near a suspect.
fn apart_from(
    alloc: Global,
    apart: u32,
    chosen: &Suspect,
    suspects: &[Suspect],
) -> Result<Vec<Suspect>, Memory>
    ensures { IfOk result (λ left. left.items ≡ apart_from apart chosen.now suspects.now) }
{
    let mut left = Vec::new(alloc);
    for suspect in suspects {
        if !are_near(apart, chosen, suspect) {
            left.push(*suspect)?;
        }
    }
    Ok(left)
}

/// At most so many of these suspects, the best first, each apart from those before it. Each takes one look at all that are left.
pub fn listed(
    alloc: Global,
    totals: Totals,
    apart: u32,
    most: u64,
    mut suspects: Vec<Suspect>,
) -> Result<Vec<Suspect>, Memory>
    requires { All (IsOfRuns totals.failing totals.successful) suspects.items }
    ensures { IfOk result (λ rows. AreListed totals.failing totals.successful apart most suspects.items rows.items) }
{
    let mut rows = Vec::new(alloc);
    for _place in 0..most {
        let Some(next) = best_of(totals, suspects.as_slice()) else {
            return Ok(rows);
        };
        rows.push(next)?;
        let left = apart_from(alloc, apart, &next, suspects.as_slice())?;
        suspects = left;
    }
    Ok(rows)
}
