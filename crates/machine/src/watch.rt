ghost use Rattle.std.specs.Prelude.{◌≡◌};
ghost use Rattle.std.specs.List.{All};
ghost use Rattle.machine.specs.Counted.{counters_raised, counted_seen, IsSmall};

use cbi_base::{Counts, Observation, Seen};

/// A site's counter of what was seen is one more.
#[inline(always)]
fn count_one(counts: &mut Counts, seen: Seen)
    requires { IsSmall counts.old }
    ensures { counts.new ≡ counters_raised seen counts.old }
{
    match seen {
        Seen::First => counts.first += 1,
        Seen::Second => counts.second += 1,
        Seen::Third => counts.third += 1,
        Seen::Nothing => {}
    }
}

/// Counts an observation at its site.
#[inline(always)]
#[tactic(auto, using(crate::proofs::CountLemmas::counted_here, crate::proofs::CountLemmas::counted_nowhere))]
pub fn count(counts: &mut [Counts], observation: Observation)
    requires { All IsSmall counts.old }
    ensures { counts.new ≡ counted_seen observation counts.old }
{
    let site = observation.site as usize;
    if site < counts.len() {
        count_one(&mut counts[site], observation.seen);
    }
}
