ghost use Rattle.std.specs.Prelude.{◌≡◌};
ghost use Rattle.countdown_bank.specs.MadeBank.{after_words, word_after, IsMadeNumber};

use rand_core::utils::NextWord;
use rand_pcg::Lcg64Xsh32;

/// The most words that one number uses.
const MOST_WORDS: u32 = 1_048_576;

/// The place of the first word below the bound, from 1, or [`MOST_WORDS`] where none of so many is below.
pub fn make_number(words: &mut Lcg64Xsh32, bound: u64) -> u32
    ensures made { IsMadeNumber (word_after words.old) bound result }
    ensures moved { words.new ≡ after_words result words.old }
{
    for place in 1..MOST_WORDS {
        if u64::from(words.next_word()) < bound {
            return place;
        }
    }
    let _last = words.next_word();
    MOST_WORDS
}
