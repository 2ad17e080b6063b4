//! What was observed and not told yet: watchers are told many observations at once.

ghost use Rattle.std.specs.Prelude.{◌≡◌, ◌<◌, [], ◌∷◌, ◌++◌, length, IsFalse};

use cbi_base::{Observation, Seen};
use std::marker::Model;

/// How many observations are kept at most.
const ROOM: usize = 64;

/// Observations that the watchers are still to be told, in order.
#[derive(Drop)]
pub struct Pending {
    items: [Observation; ROOM],
    count: usize,
}

impl Model for Pending {
    ghost use Rattle.std.specs.Prelude.{List, take, ◌≤◌};
    ghost use Rattle.cbi_base.specs.declared.observation.Observation.{Observation};

    ghost Value = { List Observation };

    ghost view = { λ p. take p.count p.items };

    ghost invariant = { λ p. p.count ≤ 64 };
}

impl Pending {
    /// Nothing is kept.
    pub fn new() -> Pending
        ensures { result ≡ [] }
    {
        let nothing = Observation {
            site: 0,
            seen: Seen::Nothing,
        };
        Pending {
            items: [nothing; ROOM],
            count: 0,
        }
    }

    /// Whether there is no room for one more.
    #[inline(always)]
    pub fn is_full(&self) -> bool
        ensures { IsFalse result → length self.now < 64 }
    {
        self.count == ROOM
    }

    /// Keeps one more.
    #[inline(always)]
    pub fn push(&mut self, observation: Observation)
        requires { length self.old < 64 }
        ensures { self.new ≡ self.old ++ observation ∷ [] }
    {
        self.items[self.count] = observation;
        self.count += 1;
    }

    /// Keeps nothing from now on.
    #[inline(always)]
    pub fn clear(&mut self)
        ensures { self.new ≡ [] }
    {
        self.count = 0;
    }

    /// What is kept.
    #[inline(always)]
    pub fn as_slice(&self) -> &[Observation]
        ensures { result.now ≡ self.now }
    {
        &self.items[..self.count]
    }
}
