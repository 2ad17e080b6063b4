//! What a watcher was told, of which only proofs know. It takes no bytes, and its methods do nothing at run time.
ghost use Rattle.std.specs.Prelude.{◌≡◌, List, [], ◌∷◌, ◌++◌};
ghost use Rattle.std.specs.Borrow.{ftrue};
ghost use Rattle.cbi_base.specs.declared.observation.Observation.{Observation};

use cbi_base::Observation;
use std::marker::Model;

/// A list of observations that is nowhere kept. Nothing ties it to memory: what a watcher keeps is tied to it by the watcher's invariant.
#[derive(Drop)]
pub struct Log {
    pub ghost observations: { List Observation },
}

impl Model for Log {
    ghost also_owns = { λ _. ftrue };
}

impl Log {
    pub fn new() -> Log
        ensures { result.observations ≡ [] }
    {
        Log {}
    }

    /// The log with one observation more.
    #[inline(always)]
    pub fn with(&self, _observation: &Observation) -> Log
        ensures { result.observations ≡ self.now.observations ++ _observation.now ∷ [] }
    {
        Log {}
    }

    /// The log with several more, in order.
    #[inline(always)]
    pub fn with_several(&self, _observations: &[Observation]) -> Log
        ensures { result.observations ≡ self.now.observations ++ _observations.now }
    {
        Log {}
    }
}
