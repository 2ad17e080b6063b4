ghost use Rattle.std.specs.Prelude.{◌≡◌, ◌≢◌, ◌≤◌, ℕ, List, OnOk, OnErr, IsErrOf, Option};
ghost use Rattle.cbi_base.specs.Faults.{CountHasRisen, last_count};
ghost use Rattle.cbi_base.specs.declared.sink.SinkError.TheVariants.{Memory};
ghost use Rattle.cbi_base.specs.Sink.{Takes, TakesPrefix};

use std::alloc::AllocError;
use thiserror::Error;

/// Why a sink didn't take a whole piece.
#[derive(Clone, Copy, Debug, PartialEq, Eq, Error)]
pub enum SinkError {
    /// A fault of the sink, which it counts.
    #[error("the sink failed")]
    Failed,
    #[error("out of memory")]
    Memory,
}

impl From<AllocError> for SinkError {
    ghost from_gives = { λ _ e. e ≡ Memory };

    fn from(_e: AllocError) -> SinkError {
        SinkError::Memory
    }
}

/// Takes bytes, piece after piece.
pub trait Sink {
    /// What it has taken, where it tells that.
    ghost taken: { Self → Option (List ℕ) };

    /// How many puts met a fault. It never falls, and stays at 2^64 - 1 once it is there.
    ghost faults: { Self → ℕ };

    /// Whether it takes what it is given, but for want of memory.
    ghost is_sound: { Self → Type 0 };

    /// Takes the whole piece.
    fn put(&mut self, piece: &[u8]) -> Result<(), SinkError>
        ensures whole { OnOk result (Takes (taken self.old) (taken self.new) piece.now) }
        ensures never_falls { faults self.old ≤ faults self.new }
        ensures in_range { faults self.new ≤ last_count }
        ensures failed { IsErrOf result SinkError.Failed → CountHasRisen (faults self.old) (faults self.new) }
        ensures part { OnErr result (TakesPrefix (taken self.old) (taken self.new) piece.now) }
        ensures memory { IsErrOf result SinkError.Memory → taken self.new ≡ taken self.old }
        ensures memory_count { IsErrOf result SinkError.Memory → faults self.new ≡ faults self.old }
        ensures sound { is_sound self.old → is_sound self.new }
        ensures sound_count { is_sound self.old → faults self.new ≡ faults self.old }
        ensures sound_answer { is_sound self.old → result ≢ Err SinkError.Failed };
}
