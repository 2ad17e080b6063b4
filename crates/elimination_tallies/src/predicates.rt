ghost use Rattle.std.specs.Prelude.{◌≡◌, ◌<◌, ◌≤◌};
ghost use Rattle.elimination_tallies.specs.Predicates.{makes_true, width_of};

use cbi_base::Counts;

/// How many predicates a site has.
pub fn width_of(branch: bool) -> u32
    ensures value { result ≡ width_of branch }
    ensures few { result ≤ 6 }
{
    if branch { 2 } else { 6 }
}

/// Whether the counters of a site make its predicate with this number true.
pub fn makes_true(branch: bool, number: u32, counts: Counts) -> bool
    requires { number < width_of branch }
    ensures { result ≡ makes_true branch number counts }
{
    let first = counts.first > 0;
    let second = counts.second > 0;
    let third = counts.third > 0;
    if branch {
        return if number == 0 { first } else { second };
    }
    match number {
        0 => first,
        1 => first || second,
        2 => third,
        3 => second || third,
        4 => second,
        _ => first || third,
    }
}
