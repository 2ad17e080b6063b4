ghost use Rattle.std.specs.Prelude.{◌≡◌, ◌≤◌, ℕ, replicate, sum, IfOk, OnErr};
ghost use Rattle.rand_pcg.specs.Lcg.{Lcg};
ghost use Rattle.countdown_bank.specs.Bank.{BankState, bank_of};
ghost use Rattle.countdown_bank.specs.MadeBank.{after_words, bound_of, numbers_from, IsMadeBank, HasMoved};

use crate::bank::Bank;
use crate::later::Later;
use crate::number::make_number;
use cbi_base::Memory;
use rand_pcg::Lcg64Xsh32;
use std::alloc::Global;

/// The bound below which a word is once in so many.
fn bound_of(rate: u32) -> u64
    requires { 1 ≤ rate }
    ensures { result ≡ bound_of rate }
{
    (1 << 32) / u64::from(rate)
}

/// A bank of so many made numbers at this rate: each is the place of the next word that is below 2^32 / rate, and the words up to
/// that one are used. After `Memory` the generator has moved by some number of words.
pub fn make_bank(
    alloc: Global,
    words: &mut Lcg64Xsh32,
    rate: u32,
    count: u32,
) -> Result<Bank, Memory>
    requires rate_some { 1 ≤ rate }
    requires rate_most { rate ≤ 65536 }
    requires count_some { 1 ≤ count }
    requires count_most { count ≤ 65536 }
    ensures made { IfOk result (IsMadeBank words.old rate count) }
    ensures moved { IfOk result (λ b. words.new ≡ after_words (sum b.numbers) words.old) }
    ensures memory { OnErr result (HasMoved words.old words.new) }
{
    let bound = bound_of(rate);
    let mut numbers = Vec::new(alloc);
    for _place in 0..count {
        numbers.push(make_number(words, bound))?;
    }
    Ok(Bank::of(numbers))
}

/// The bank that [`make_bank`] makes of these words, each number when it is drawn first: so it costs what is drawn of it. All its
/// memory is taken here.
pub fn later_bank(alloc: Global, words: Lcg64Xsh32, rate: u32, count: u32) -> Result<Bank, Memory>
    requires rate_some { 1 ≤ rate }
    requires rate_most { rate ≤ 65536 }
    requires count_some { 1 ≤ count }
    requires count_most { count ≤ 65536 }
    ensures { IfOk result (IsMadeBank words rate count) }
{
    let whole = count as usize;
    let made = Vec::with_capacity(alloc, whole)?;
    let later = Later::new(words, bound_of(rate), count);
    Ok(Bank::begun(made, later, whole))
}

/// A law: from one generator, at one rate, so many numbers are made in one way alone.
pub fn one_made_bank()
    ensures { (g : Lcg) (rate count : ℕ) (a b : BankState) → IsMadeBank g rate count a → IsMadeBank g rate count b → a ≡ b }
{}

/// A law: the made bank is that of the numbers that are computed from the generator.
pub fn made_numbers_are_computed()
    ensures { (g : Lcg) (rate count : ℕ) → IsMadeBank g rate count (bank_of (numbers_from count (bound_of rate) g)) }
{}

/// A law: each word is below 2^32, so at rate 1 each number is 1.
pub fn ones_at_rate_one()
    ensures { (g : Lcg) (count : ℕ) (b : BankState) → IsMadeBank g 1 count b → b.numbers ≡ replicate count 1 }
{}
