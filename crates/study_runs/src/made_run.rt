ghost use Rattle.std.specs.Prelude.{◌≡◌, ◌≤◌, IfOk};
ghost use Rattle.countdown_bank.specs.MadeBank.{word_after};
ghost use Rattle.study_runs.specs.MadeRun.{IsMadeRun, byte_from, line_from};

use cbi_base::Memory;
use countdown_bank::{Bank, make_bank};
use rand_core::utils::NextWord;
use rand_pcg::Lcg64Xsh32;
use std::alloc::Global;

/// How many numbers the bank of a made run has.
const NUMBERS: u32 = 256;

/// What a run is made of.
#[derive(Debug, Drop)]
pub struct MadeRun {
    /// Which visits of sites are sampled.
    pub bank: Bank,
    /// One line.
    pub input: Vec<u8>,
}

/// A printable byte of ASCII, 32 to 126, from a word.
fn byte_from(word: u32) -> u8
    ensures { result ≡ byte_from word }
{
    32 + (word % 95) as u8
}

/// A line of at most 63 printable bytes: the first word gives its length, and each later one a byte.
fn make_line(alloc: Global, words: &mut Lcg64Xsh32) -> Result<Vec<u8>, Memory>
    ensures { IfOk result (λ line. line.items ≡ line_from (word_after words.old)) }
{
    let length = words.next_word() % 64;
    let mut line = Vec::new(alloc);
    for _place in 0..length {
        let word = words.next_word();
        line.push(byte_from(word))?;
    }
    line.push(b'\n')?;
    Ok(line)
}

/// The bank, at the rate, and the input of the run with this number, from the generator with the seed on the stream of that number: the numbers of
/// the bank are made first, then the line of the input.
pub fn make_run(alloc: Global, seed: u64, rate: u32, number: u32) -> Result<MadeRun, Memory>
    requires rate_some { 1 ≤ rate }
    requires rate_most { rate ≤ 65536 }
    ensures { IfOk result (λ run. IsMadeRun seed rate number run.bank run.input.items) }
{
    let mut words = Lcg64Xsh32::new(seed, u64::from(number));
    let bank = make_bank(alloc, &mut words, rate, NUMBERS)?;
    let input = make_line(alloc, &mut words)?;
    Ok(MadeRun { bank, input })
}
