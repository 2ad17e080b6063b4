ghost use Rattle.std.specs.Prelude.{◌≡◌, ◌≤◌, ◌↔◌, ◌++◌, [], OnOk, IsErrOf, Some};
ghost use Rattle.cbi_base.specs.Faults.{last_count, next_count};
ghost use Rattle.cbi_base.specs.Failing.{IsToFail, NoneIsToFail};

use crate::sink::{Sink, SinkError};
use std::marker::Model;

/// A sink in memory: it keeps what it takes, and fails at the puts that it is told to.
#[derive(Debug, Drop)]
pub struct MemSink {
    taken: Vec<u8>,
    calls: u64,
    failing: Vec<u64>,
    faults: u64,
}

impl Model for MemSink {
    ghost use Rattle.std.specs.Prelude.{◌≤◌};
    ghost use Rattle.cbi_base.specs.Faults.{last_count};
    ghost use Rattle.cbi_base.specs.MemSink.{SinkState};

    ghost Value = { SinkState };

    ghost view = { λ s. record { taken = s.taken.items; calls = s.calls; failing = s.failing.items; faults = s.faults } };

    ghost invariant = { λ s. s.faults ≤ last_count };
}

impl MemSink {
    /// Nothing is taken yet. The puts whose numbers, from 1, are in `failing` are to fail.
    pub fn new(failing: Vec<u64>) -> MemSink
        ensures state { result ≡ record { taken = []; calls = 0; failing = failing.items; faults = 0 } }
        ensures sound { failing.items ≡ [] → ⟦<MemSink as Sink>⟧.is_sound result }
    {
        MemSink {
            taken: Vec::new(*failing.allocator()),
            calls: 0,
            failing,
            faults: 0,
        }
    }

    /// What it has taken.
    pub fn taken(&self) -> &[u8]
        ensures { result.now ≡ self.now.taken }
    {
        self.taken.as_slice()
    }
}

#[tactic(auto, using(crate::proofs::FaultLemmas::NoneIsToFail_next))]
impl Sink for MemSink {
    ghost taken = { λ s. Some s.taken };

    ghost faults = { λ s. s.faults };

    ghost is_sound = { λ s. NoneIsToFail s.failing s.calls };

    fn put(&mut self, piece: &[u8]) -> Result<(), SinkError>
        ensures fails { IsErrOf result SinkError.Failed ↔ IsToFail self.old.failing self.old.calls }
        ensures ok { OnOk result (self.new ≡ record self.old { taken = self.old.taken ++ piece.now; calls = next_count self.old.calls }) }
        ensures failed { IsErrOf result SinkError.Failed
            → self.new ≡ record self.old { calls = next_count self.old.calls; faults = next_count self.old.faults } }
        ensures memory { IsErrOf result SinkError.Memory → self.new ≡ record self.old { calls = next_count self.old.calls } }
        ensures never_falls { self.old.faults ≤ self.new.faults }
        ensures in_range { self.new.faults ≤ last_count }
        ensures sound { NoneIsToFail self.old.failing self.old.calls → NoneIsToFail self.new.failing self.new.calls }
    {
        self.calls = self.calls.saturating_add(1);
        if self.failing.contains(&self.calls) {
            self.faults = self.faults.saturating_add(1);
            return Err(SinkError::Failed);
        }
        self.taken.extend_from_slice(piece)?;
        Ok(())
    }
}
