ghost use Rattle.std.specs.Prelude.{◌≡◌, ◌≤◌, IfSome};
ghost use Rattle.cbi_base.specs.Words.{object_limit, local_at};
ghost use Rattle.machine_rows.specs.LocalsFit.{LocalsFit};

use std::marker::Model;

/// The objects of a function's locals: so many, with the numbers from this one on.
#[derive(Clone, Copy)]
pub struct Locals {
    first: u64,
    count: u32,
}

impl Model for Locals {
    ghost use Rattle.cbi_base.specs.Frames.{Locals};
    ghost use Rattle.machine_rows.specs.LocalsFit.{LocalsFit};

    ghost Value = { Locals };

    ghost view = { λ l. record { first = l.first; count = l.count } };

    ghost invariant = { λ l. LocalsFit l.first l.count };

    ghost inverse = { λ l. record { first = l.first; count = l.count } };
}

impl Locals {
    #[inline(always)]
    pub fn new(first: u64, count: u32) -> Locals
        requires { LocalsFit first count }
        ensures { result ≡ record { first = first; count = count } }
    {
        Locals { first, count }
    }

    /// The object of a local.
    #[inline(always)]
    pub fn get(self, index: u32) -> Option<u64>
        ensures value { result ≡ local_at index self }
        ensures near { IfSome result (λ number. number ≤ object_limit) }
    {
        if index < self.count {
            Some(self.first + u64::from(index))
        } else {
            None
        }
    }

    /// The number of the first object.
    #[inline(always)]
    pub fn first(self) -> u64
        ensures { result ≡ self.first }
    {
        self.first
    }

    /// How many there are.
    #[inline(always)]
    pub fn count(self) -> u32
        ensures { result ≡ self.count }
    {
        self.count
    }
}
