ghost use Rattle.std.specs.Prelude.{None};

use cbi_base::{Sink, SinkError};

/// A sink that has no memory for any piece.
#[derive(Drop)]
pub struct NoMemory;

impl Sink for NoMemory {
    ghost taken = { λ _. None };

    ghost faults = { λ _. 0 };

    ghost is_sound = { λ _. ⊥ };

    fn put(&mut self, _piece: &[u8]) -> Result<(), SinkError> {
        Err(SinkError::Memory)
    }
}
