ghost use Rattle.std.specs.Prelude.{◌≡◌, ◌↔◌, ◌+◌, ◌<◌, ◌≤◌, ℕ, ◌++◌, length, slice_index, vec_capacity, IsSome, IfSome};
ghost use Rattle.countdown_bank.specs.Bank.{BankState, AreNumbers, IsBank, IsCountdown, bank_of, bank_after_draws, number_after};
ghost use Rattle.countdown_bank.specs.Held.{IsBankHeld};

use crate::later::Later;
use std::marker::Model;

/// The most numbers that a bank has.
pub const MOST_NUMBERS: usize = 65_536;

/// The greatest number that a bank has.
pub const GREATEST_NUMBER: u32 = 2_147_483_647;

/// A bank of countdowns. Contracts see it as its numbers and the place of the one that is drawn next. Numbers that are made by a
/// generator may be made when they are drawn first: that is nothing that contracts see.
#[derive(Debug, Drop)]
pub struct Bank {
    made: Vec<u32>,
    later: Later,
    count: usize,
    position: usize,
}

impl Model for Bank {
    ghost use Rattle.std.specs.Prelude.{◌++◌, vec_capacity};
    ghost use Rattle.countdown_bank.specs.Bank.{BankState};
    ghost use Rattle.countdown_bank.specs.Held.{IsBankHeld};

    ghost Value = { BankState };

    ghost view = { λ b. record { numbers = b.made.items ++ b.later; position = b.position } };

    ghost invariant = { λ b. IsBankHeld b.made.items b.later (vec_capacity b.made) b.count b.position };
}

/// Makes the number at the position, where it is the first that isn't made yet.
#[inline]
fn reach(made: &mut Vec<u32>, later: &mut Later, position: usize)
    requires inside { position < length (made.old.items ++ later.old) }
    requires reached { position ≤ length made.old.items }
    requires room { length (made.old.items ++ later.old) ≤ vec_capacity made.old }
    ensures same { made.new.items ++ later.new ≡ made.old.items ++ later.old }
    ensures reached { position < length made.new.items }
    ensures room { vec_capacity made.new ≡ vec_capacity made.old }
{
    if position == made.len() {
        make_next(made, later);
    }
}

/// Makes one more number.
#[inline(never)]
fn make_next(made: &mut Vec<u32>, later: &mut Later)
    requires some { 0 < length later.old }
    requires room { length made.old.items < vec_capacity made.old }
    ensures same { made.new.items ++ later.new ≡ made.old.items ++ later.old }
    ensures more { length made.new.items ≡ length made.old.items + 1 }
    ensures room { vec_capacity made.new ≡ vec_capacity made.old }
{
    let Some(number) = later.next() else {
        unreachable!()
    };
    made.push_reserved(number);
}

impl Bank {
    /// A bank of these numbers, drawn from its first on. None exactly where they make no bank: the list is empty or longer than
    /// 65,536, or a number is 0 or greater than 2,147,483,647.
    pub fn new(numbers: Vec<u32>) -> Option<Bank>
        ensures some { IsSome result ↔ AreNumbers numbers.items }
        ensures value { IfSome result (λ b. b ≡ bank_of numbers.items) }
    {
        if numbers.is_empty() || numbers.len() > MOST_NUMBERS {
            return None;
        }
        if numbers.iter().all(|n| *n >= 1 && *n <= GREATEST_NUMBER) {
            Some(Bank::of(numbers))
        } else {
            None
        }
    }

    /// The bank of numbers that make one.
    pub fn of(numbers: Vec<u32>) -> Bank
        requires { AreNumbers numbers.items }
        ensures { result ≡ bank_of numbers.items }
    {
        let count = numbers.len();
        Bank::begun(numbers, Later::none(), count)
    }

    /// The bank of so many numbers, of which these are made and the others will be.
    pub(crate) fn begun(made: Vec<u32>, later: Later, count: usize) -> Bank
        requires { IsBankHeld made.items later (vec_capacity made) count 0 }
        ensures { result ≡ bank_of (made.items ++ later) }
    {
        Bank {
            made,
            later,
            count,
            position: 0,
        }
    }

    /// The number at the position, which moves on: after the last number to the first.
    #[inline]
    pub fn draw(&mut self) -> u32
        ensures value { result ≡ number_after self.old 0 }
        ensures moved { self.new ≡ bank_after_draws 1 self.old }
        ensures countdown { IsCountdown result }
        ensures is_bank { IsBank self.new }
    {
        reach(&mut self.made, &mut self.later, self.position);
        let number = self.made[self.position];
        self.position += 1;
        if self.position == self.count {
            self.position = 0;
        }
        number
    }

    /// Its numbers, from the first on. Those that weren't drawn yet are made for it.
    pub fn numbers(&self) -> BankNumbers<'_>
        ensures value { result ≡ self.now.numbers }
        ensures is_bank { IsBank self.now }
    {
        BankNumbers {
            made: self.made.as_slice(),
            later: self.later.again(),
        }
    }

    /// The place of the number that is drawn next.
    pub fn position(&self) -> usize
        ensures value { result ≡ self.now.position }
        ensures is_bank { IsBank self.now }
    {
        self.position
    }
}

/// What is left of the numbers of a bank.
#[derive(Debug, Drop)]
pub struct BankNumbers<'a> {
    made: &'a [u32],
    later: Later,
}

impl<'a> Model for BankNumbers<'a> {
    ghost use Rattle.std.specs.Prelude.{ℕ, List, ◌++◌};

    ghost Value = { List ℕ };

    ghost view = { λ n. n.made.now ++ n.later };
}

impl<'a> Iterator for BankNumbers<'a> {
    ghost use Rattle.std.specs.Iterator.{YieldsFirst, item_count};

    type Item = u32;

    ghost next_gives = { YieldsFirst (λ left. left) };

    ghost remaining = { item_count (λ left. left) };

    fn next(&mut self) -> Option<u32> {
        let Some((number, others)) = self.made.split_first() else {
            return self.later.next();
        };
        self.made = others;
        Some(*number)
    }
}

/// Laws: the first number drawn is the one at the position, a draw moves on by one place or from the last to the first, and what
/// some draws leave goes on where they end.
pub fn numbers_come_round()
    ensures first { (b : BankState) → IsBank b → number_after b 0 ≡ slice_index b.numbers b.position }
    ensures next { (b : BankState) → b.position + 1 < length b.numbers → bank_after_draws 1 b ≡ record b { position = b.position + 1 } }
    ensures round { (b : BankState) → b.position + 1 ≡ length b.numbers → bank_after_draws 1 b ≡ record b { position = 0 } }
    ensures rest { (b : BankState) (draws more : ℕ) → number_after (bank_after_draws draws b) more ≡ number_after b (draws + more) }
{}
