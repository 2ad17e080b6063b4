ghost use Rattle.probes.specs.LastSeen.{last_seen_line};

use cbi_base::{Memory, Observation};
use probes::{LastSeen, Probe};
use std::alloc::Global;

/// A watcher that wants memory where it is told more than so many observations. Its line is that of the last ones.
#[derive(Drop)]
pub struct Few {
    left: u64,
    last: LastSeen,
}

impl Few {
    /// It is told nothing yet.
    pub fn new(alloc: Global, most: u64) -> Few {
        Few {
            left: most,
            last: LastSeen::new(alloc),
        }
    }
}

impl Probe for Few {
    ghost seen = { λ p. p.last };

    ghost line_text = { λ p. last_seen_line p.last };

    fn see(&mut self, observation: Observation) -> Result<(), Memory> {
        if self.left == 0 {
            return Err(Memory);
        }
        self.last.see(observation)?;
        self.left -= 1;
        Ok(())
    }

    fn line(&self, text: &mut Vec<u8>) -> Result<(), Memory> {
        self.last.line(text)
    }
}
