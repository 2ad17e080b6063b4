ghost use Rattle.std.specs.Prelude.{◌≡◌, ◌≢◌, ◌≤◌, ℕ, IfOk, OnOk, OnErr, IsErrOf, IsSome, Option};
ghost use Rattle.cbi_base.specs.Faults.{CountHasRisen, last_count};
ghost use Rattle.cbi_base.specs.declared.store.StoreError.TheVariants.{Memory};
ghost use Rattle.cbi_base.specs.Store.{Held, IsHeld, IsReadOf, Replaces, MayReplace, OthersStay};

use std::alloc::{AllocError, Global};
use thiserror::Error;

/// Why a store didn't do what it was asked.
#[derive(Clone, Copy, Debug, PartialEq, Eq, Error)]
pub enum StoreError {
    /// A fault of the store, which it counts.
    #[error("the store failed")]
    Failed,
    #[error("out of memory")]
    Memory,
}

impl From<AllocError> for StoreError {
    ghost from_gives = { λ _ e. e ≡ Memory };

    fn from(_e: AllocError) -> StoreError {
        StoreError::Memory
    }
}

/// Named bytes that can be read and replaced.
pub trait Store {
    /// What it holds, where it tells that.
    ghost holds: { Self → Option Held };

    /// How many reads met a fault. It never falls, and stays at 2^64 - 1 once it is there.
    ghost read_faults: { Self → ℕ };

    /// How many writes met a fault, counted likewise.
    ghost write_faults: { Self → ℕ };

    /// Whether it does what it is asked, but for want of memory.
    ghost is_sound: { Self → Type 0 };

    /// All bytes of the name where they are at most `max`, and else the first `max + 1`. A name that isn't held is a fault.
    fn read(&mut self, alloc: Global, name: &str, max: u64) -> Result<Vec<u8>, StoreError>
        ensures bytes { IfOk result (λ v. IsReadOf (holds self.old) name.now max v.items) }
        ensures was_held { OnOk result (IsHeld (holds self.old) name.now) }
        ensures held { holds self.new ≡ holds self.old }
        ensures write_count { write_faults self.new ≡ write_faults self.old }
        ensures never_falls { read_faults self.old ≤ read_faults self.new }
        ensures in_range { read_faults self.new ≤ last_count }
        ensures failed { IsErrOf result StoreError.Failed → CountHasRisen (read_faults self.old) (read_faults self.new) }
        ensures memory { IsErrOf result StoreError.Memory → read_faults self.new ≡ read_faults self.old }
        ensures sound { is_sound self.old → is_sound self.new }
        ensures sound_count { is_sound self.old → IsHeld (holds self.old) name.now → read_faults self.new ≡ read_faults self.old }
        ensures sound_answer { is_sound self.old → IsHeld (holds self.old) name.now → result ≢ Err StoreError.Failed };

    /// Makes the name hold the bytes.
    fn write(&mut self, alloc: Global, name: &str, bytes: &[u8]) -> Result<(), StoreError>
        ensures bytes { OnOk result (Replaces (holds self.old) (holds self.new) name.now bytes.now) }
        ensures read_count { read_faults self.new ≡ read_faults self.old }
        ensures never_falls { write_faults self.old ≤ write_faults self.new }
        ensures in_range { write_faults self.new ≤ last_count }
        ensures failed { IsErrOf result StoreError.Failed → CountHasRisen (write_faults self.old) (write_faults self.new) }
        ensures part { OnErr result (MayReplace (holds self.old) (holds self.new) name.now bytes.now) }
        ensures others { OnErr result (OthersStay (holds self.old) (holds self.new) name.now) }
        ensures memory { IsErrOf result StoreError.Memory → holds self.new ≡ holds self.old }
        ensures memory_count { IsErrOf result StoreError.Memory → write_faults self.new ≡ write_faults self.old }
        ensures sound { is_sound self.old → is_sound self.new }
        ensures sound_count { is_sound self.old → write_faults self.new ≡ write_faults self.old }
        ensures sound_answer { is_sound self.old → result ≢ Err StoreError.Failed };

    /// A sound store tells what it holds.
    ghost tells: { (s : Self) → is_sound s → IsSome (holds s) };
}
