ghost use Rattle.std.specs.Prelude.{◌≡◌, ◌≤◌, ◌<◌, ◌*◌, ◌^◌, length, slice_index_or, false};
ghost use Rattle.elimination_tallies.specs.Predicates.{first_predicate, is_of, makes_true, is_observed_in_entry, predicates_in, is_true_in_entry, width_of};
ghost use Rattle.elimination_tallies.specs.Recount.{is_observed, is_true};

use cbi_base::Counts;
use elimination_tallies::LabelledRun;
use report_file::Entry;

fn width_of(branch: bool) -> u32
    ensures { result ≡ width_of branch }
{
    if branch { 2 } else { 6 }
}

/// How many predicates sites have, of which it is known whether each is a branch.
pub fn predicates_in(branches: &[bool]) -> u32
    requires { length branches.now ≤ 65536 }
    ensures value { result ≡ predicates_in branches.now }
    ensures few { result ≤ 6 * length branches.now }
{
    let mut count = 0;
    let mut rest = branches;
    while let [branch, after @ ..] = rest {
        count += width_of(*branch);
        rest = after;
    }
    count
}

// The number of the first predicate of a site.
fn first_predicate(branches: &[bool], site: u64) -> u32
    requires { length branches.now ≤ 65536 }
    ensures { result ≡ first_predicate branches.now site }
{
    if branches.len() as u64 <= site {
        return predicates_in(branches);
    }
    predicates_in(&branches[..site as usize])
}

// Whether the predicate is one of this site's.
fn is_of(branches: &[bool], site: u32, predicate: u32) -> bool
    requires { length branches.now ≤ 65536 }
    ensures { result ≡ is_of branches.now site predicate }
{
    let site = u64::from(site);
    first_predicate(branches, site) <= predicate && predicate < first_predicate(branches, site + 1)
}

// Whether the site is a branch; one that isn't there is none.
fn is_branch(branches: &[bool], site: u32) -> bool
    ensures { result ≡ slice_index_or branches.now site false }
{
    match branches.get(site as usize) {
        Some(branch) => *branch,
        None => false,
    }
}

// Whether the counters of a site make its predicate with this number true.
fn makes_true(branch: bool, number: u32, counts: Counts) -> bool
    ensures { result ≡ makes_true branch number counts }
{
    let first = counts.first > 0;
    let second = counts.second > 0;
    let third = counts.third > 0;
    match (branch, number) {
        (true, 0) => first,
        (true, _) => second,
        (false, 0) => first,
        (false, 1) => first || second,
        (false, 2) => third,
        (false, 3) => second || third,
        (false, 4) => second,
        (false, _) => first || third,
    }
}

#[tactic(auto, unfolding(elimination_tallies::specs::Predicates::is_true_in_entry))]
fn shows(branches: &[bool], predicate: u32, entry: &Entry) -> bool
    requires { length branches.now ≤ 65536 }
    ensures { result ≡ is_true_in_entry branches.now predicate entry.now }
{
    if !is_of(branches, entry.site, predicate) {
        return false;
    }
    let number = predicate - first_predicate(branches, u64::from(entry.site));
    makes_true(is_branch(branches, entry.site), number, entry.counts)
}

#[tactic(auto, unfolding(elimination_tallies::specs::Predicates::is_observed_in_entry))]
fn observes(branches: &[bool], predicate: u32, entry: &Entry) -> bool
    requires { length branches.now ≤ 65536 }
    ensures { result ≡ is_observed_in_entry branches.now predicate entry.now }
{
    let counts = entry.counts;
    is_of(branches, entry.site, predicate)
        && (counts.first > 0 || counts.second > 0 || counts.third > 0)
}

/// Whether the predicate was true in the run at least once.
pub fn is_true(branches: &[bool], predicate: u32, run: &LabelledRun) -> bool
    requires { length branches.now ≤ 65536 }
    ensures { result ≡ is_true branches.now predicate run.now }
{
    let mut rest = run.entries.as_slice();
    while let [entry, after @ ..] = rest {
        if shows(branches, predicate, entry) {
            return true;
        }
        rest = after;
    }
    false
}

/// Whether the predicate's site was observed in the run at least once.
pub fn is_observed(branches: &[bool], predicate: u32, run: &LabelledRun) -> bool
    requires { length branches.now ≤ 65536 }
    ensures { result ≡ is_observed branches.now predicate run.now }
{
    let mut rest = run.entries.as_slice();
    while let [entry, after @ ..] = rest {
        if observes(branches, predicate, entry) {
            return true;
        }
        rest = after;
    }
    false
}
