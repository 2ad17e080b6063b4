ghost use Rattle.std.specs.Prelude.{◌≡◌, ◌≢◌, ◌≤◌, ℕ, OnOk, OnErr, IsErrOf, None, take};
ghost use Rattle.std.specs.Io.KnownBytes.{Appends};
ghost use Rattle.cbi_base.specs.Faults.{last_count, next_count};

use crate::sink::{Sink, SinkError};
use std::io::{self, ErrorKind, Write};
use std::marker::Model;

/// A writer of the system. As a sink it tells nothing of what it took.
#[derive(Drop)]
pub struct StdSink<W> {
    to: W,
    faults: u64,
}

impl<W> Model for StdSink<W> {
    ghost use Rattle.std.specs.Prelude.{◌≤◌};
    ghost use Rattle.cbi_base.specs.Faults.{last_count};
    ghost use Rattle.cbi_base.specs.StdSink.{SinkOver, coded_sink};

    ghost Value = { SinkOver W };

    ghost coded = { coded_sink W.code };

    ghost view = { λ s. record { to = s.to; faults = s.faults } };

    ghost invariant = { λ s. s.faults ≤ last_count };
}

impl<W> StdSink<W> {
    /// A sink that writes to this writer.
    pub fn new(to: W) -> StdSink<W>
        ensures { result ≡ record { to = to; faults = 0 } }
    {
        StdSink { to, faults: 0 }
    }
}

/// Writes until the whole piece is taken, and flushes. A write that takes nothing is an error.
fn write_whole<W: Write>(to: &mut W, piece: &[u8]) -> io::Result<()>
    ensures ok { OnOk result (Appends (W.contents to.old) (W.contents to.new) piece.now) }
    ensures err { OnErr result ((cut : ℕ) × Appends (W.contents to.old) (W.contents to.new) (take cut piece.now)) }
{
    let mut done = 0;
    for _ in 0..u64::MAX {
        if done == piece.len() {
            return to.flush();
        }
        match to.write(&piece[done..]) {
            Ok(0) => return Err(io::Error::from(ErrorKind::WriteZero)),
            Ok(count) => done += count,
            Err(e) if e.kind() == ErrorKind::Interrupted => {}
            Err(e) => return Err(e),
        }
    }
    // Only writes that were interrupted again and again come here.
    Err(io::Error::from(ErrorKind::Interrupted))
}

impl<W: Write + Drop> Sink for StdSink<W> {
    ghost taken = { λ _. None };

    ghost faults = { λ s. s.faults };

    ghost is_sound = { λ _. ⊥ };

    fn put(&mut self, piece: &[u8]) -> Result<(), SinkError>
        ensures whole { OnOk result (Appends (W.contents self.old.to) (W.contents self.new.to) piece.now) }
        ensures part { IsErrOf result SinkError.Failed → ((cut : ℕ) × Appends (W.contents self.old.to) (W.contents self.new.to) (take cut piece.now)) }
        ensures ok { OnOk result (self.new.faults ≡ self.old.faults) }
        ensures failed { IsErrOf result SinkError.Failed → self.new.faults ≡ next_count self.old.faults }
        ensures no_memory { result ≢ Err SinkError.Memory }
        ensures never_falls { self.old.faults ≤ self.new.faults }
        ensures in_range { self.new.faults ≤ last_count }
    {
        if write_whole(&mut self.to, piece).is_err() {
            self.faults = self.faults.saturating_add(1);
            return Err(SinkError::Failed);
        }
        Ok(())
    }
}
