ghost use Rattle.std.specs.Prelude.{◌≡◌, ◌≤◌, ◌+◌, ◌∷◌, ◌++◌, [], length, IfSome, IfNone};
ghost use Rattle.cbi_base.specs.Words.{output_limit, bytes_printed};
ghost use Rattle.machine_rows.specs.Printed.{IsPrinted, stop_in};

use crate::stop::Stop;
use cbi_base::{Outcome, Seq};
use std::alloc::Global;
use std::marker::Model;

/// The most bytes that a run writes.
const OUTPUT_LIMIT: usize = 16777216;

/// What a run wrote so far. It has at most 16,777,216 bytes.
#[derive(Drop)]
pub struct Output {
    bytes: Seq<u8>,
}

impl Model for Output {
    ghost use Rattle.std.specs.Prelude.{◌≤◌, ℕ, List, length};
    ghost use Rattle.cbi_base.specs.Limits.{output_limit};

    ghost Value = { List ℕ };

    ghost view = { λ o. o.bytes };

    ghost invariant = { λ o. length o.bytes ≤ output_limit };
}

impl Output {
    pub fn new(alloc: Global) -> Output
        ensures { result ≡ [] }
    {
        Output {
            bytes: Seq::new(alloc),
        }
    }

    /// How many bytes it has.
    pub fn len(&self) -> usize
        ensures value { result ≡ length self.now }
        ensures most { length self.now ≤ output_limit }
    {
        self.bytes.len()
    }

    /// Writes a byte, where there is room for it.
    pub fn put(&mut self, byte: u8) -> Result<(), Stop>
        ensures { IsPrinted (bytes_printed (byte ∷ [])) self.old (stop_in result) self.new }
    {
        if self.bytes.len() >= OUTPUT_LIMIT {
            return Err(Stop::Over {
                outcome: Outcome::CutOutput,
            });
        }
        self.bytes.push(byte)?;
        Ok(())
    }

    /// Writes a byte. None where there is no room for it or memory is wanting, and nothing was done.
    #[inline(always)]
    pub fn try_put(&mut self, byte: u8) -> Option<()>
        ensures written { IfSome result (λ _. self.new ≡ self.old ++ byte ∷ []) }
        ensures room { IfSome result (λ _. length self.old + 1 ≤ output_limit) }
        ensures same { IfNone result (self.new ≡ self.old) }
    {
        if self.bytes.len() >= OUTPUT_LIMIT {
            return None;
        }
        match self.bytes.push(byte) {
            Ok(()) => Some(()),
            Err(_) => None,
        }
    }

    /// Writes bytes as far as there is room for them.
    pub fn write(&mut self, bytes: &[u8]) -> Result<(), Stop>
        ensures { IsPrinted (bytes_printed bytes.now) self.old (stop_in result) self.new }
    {
        for byte in bytes {
            self.put(*byte)?;
        }
        let _ = self.len();
        Ok(())
    }

    pub fn into_bytes(self) -> Seq<u8>
        ensures value { result ≡ self }
        ensures most { length result ≤ output_limit }
    {
        let Output { bytes } = self;
        bytes
    }
}
