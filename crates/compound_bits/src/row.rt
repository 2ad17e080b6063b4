ghost use Rattle.std.specs.Prelude.{◌≡◌, ◌*◌, ◌<◌, ◌^◌, length, replicate, slice_index_or, slice_set, IfOk};
ghost use Rattle.compound_bits.specs.Bits.{facts_of, with_bit};
ghost use Rattle.compound_bits.specs.Facts.{decided_count, both_hold_count, no_fact, fact_seen};

use cbi_base::Memory;
use std::alloc::Global;
use std::marker::Model;

/// A fact at each of several places. Contracts see it as the list of these.
#[derive(Drop)]
pub struct FactRow {
    truth: Vec<u64>,
    known: Vec<u64>,
}

impl Model for FactRow {
    ghost use Rattle.std.specs.Prelude.{◌≡◌, List, length};
    ghost use Rattle.compound_bits.specs.Facts.{Fact};
    ghost use Rattle.compound_bits.specs.Bits.{facts_of};

    ghost Value = { List Fact };

    ghost view = { λ r. facts_of r.truth.items r.known.items };

    ghost invariant = { λ r. length r.truth.items ≡ length r.known.items };
}

// Sets the bit at a place.
fn set(words: &mut [u64], place: usize)
    requires { place < 64 * length words.old }
    ensures { words.new ≡ with_bit place words.old }
{
    let word = place / 64;
    words[word] |= 1 << (place % 64);
}

fn zeros(alloc: Global, words: usize) -> Result<Vec<u64>, Memory>
    ensures { IfOk result (λ row. row.items ≡ replicate words 0) }
{
    Ok(vec![in alloc; 0; words]?)
}

impl FactRow {
    /// 64 places for each of so many words, at none of which anything is known.
    pub fn new(alloc: Global, words: usize) -> Result<FactRow, Memory>
        ensures { IfOk result (λ row. row ≡ replicate (64 * words) no_fact) }
    {
        Ok(FactRow {
            truth: zeros(alloc, words)?,
            known: zeros(alloc, words)?,
        })
    }

    /// The fact was seen at this place, and was true there or not.
    pub fn see(&mut self, place: usize, truth: bool)
        requires { place < length self.old }
        ensures { self.new ≡ slice_set self.old place (fact_seen truth (slice_index_or self.old place no_fact)) }
    {
        set(self.known.as_mut_slice(), place);
        if truth {
            set(self.truth.as_mut_slice(), place);
        }
    }
}

// The same for the words of two rows.
fn count_words(
    left_truth: &[u64],
    left_known: &[u64],
    right_truth: &[u64],
    right_known: &[u64],
) -> (u32, u32)
    requires left { length left_known.now ≡ length left_truth.now }
    requires truth { length right_truth.now ≡ length left_truth.now }
    requires right { length right_known.now ≡ length left_truth.now }
    requires few { 64 * length left_truth.now < 2 ^ 32 }
    ensures holding { result.0 ≡ both_hold_count (facts_of left_truth.now left_known.now) (facts_of right_truth.now right_known.now) }
    ensures decided { result.1 ≡ decided_count (facts_of left_truth.now left_known.now) (facts_of right_truth.now right_known.now) }
{
    let mut holding = 0;
    let mut decided = 0;
    for word in 0..left_truth.len() {
        let both = left_truth[word] & right_truth[word];
        let left_refuted = left_known[word] & !left_truth[word];
        let right_refuted = right_known[word] & !right_truth[word];
        holding += both.count_ones();
        decided += (both | left_refuted | right_refuted).count_ones();
    }
    (holding, decided)
}

/// In how many places both facts hold, and in how many it is known whether they do.
pub fn count_both(left: &FactRow, right: &FactRow) -> (u32, u32)
    requires same { length left.now ≡ length right.now }
    requires few { length left.now < 2 ^ 32 }
    ensures holding { result.0 ≡ both_hold_count left.now right.now }
    ensures decided { result.1 ≡ decided_count left.now right.now }
{
    count_words(
        left.truth.as_slice(),
        left.known.as_slice(),
        right.truth.as_slice(),
        right.known.as_slice(),
    )
}
