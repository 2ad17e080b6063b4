ghost use Rattle.std.specs.Prelude.{◌≡◌, []};
ghost use Rattle.countdown_bank.specs.MadeBank.{numbers_from};

use crate::number::make_number;
use rand_pcg::Lcg64Xsh32;
use std::marker::Model;

/// Numbers that a generator is still to make. Contracts see them as their list.
#[derive(Debug, Drop)]
pub struct Later {
    words: Lcg64Xsh32,
    bound: u64,
    left: u32,
}

impl Model for Later {
    ghost use Rattle.std.specs.Prelude.{ℕ, List};
    ghost use Rattle.countdown_bank.specs.MadeBank.{numbers_from};

    ghost Value = { List ℕ };

    ghost view = { λ l. numbers_from l.left l.bound l.words };
}

impl Later {
    /// So many numbers.
    pub fn new(words: Lcg64Xsh32, bound: u64, left: u32) -> Later
        ensures { result ≡ numbers_from left bound words }
    {
        Later { words, bound, left }
    }

    pub fn none() -> Later
        ensures { result ≡ [] }
    {
        Later::new(Lcg64Xsh32::from_state(0, 0), 0, 0)
    }

    /// The same numbers once more.
    pub fn again(&self) -> Later
        ensures { result ≡ self.now }
    {
        let Ok(words) = self.words.clone() else {
            unreachable!()
        };
        Later::new(words, self.bound, self.left)
    }
}

impl Iterator for Later {
    ghost use Rattle.std.specs.Iterator.{YieldsFirst, item_count};

    type Item = u32;

    ghost next_gives = { YieldsFirst (λ left. left) };

    ghost remaining = { item_count (λ left. left) };

    fn next(&mut self) -> Option<u32> {
        if self.left == 0 {
            return None;
        }
        self.left -= 1;
        Some(make_number(&mut self.words, self.bound))
    }
}
