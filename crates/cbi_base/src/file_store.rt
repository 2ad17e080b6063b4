ghost use Rattle.std.specs.Prelude.{◌≡◌, ◌≢◌, ◌≤◌, ◌+◌, ◌∷◌, [], IfOk, IfSome, OnOk, IsErrOf, None, take, vec_len};
ghost use Rattle.cbi_base.specs.Faults.{last_count, next_count};

use crate::store::{Store, StoreError};
use std::alloc::Global;
use std::fs;
use std::io::{self, ErrorKind, Read};
use std::marker::Model;
use std::rt::Files;

/// The name of standard input, which is read and never written.
const STANDARD_INPUT: &str = "-";

/// How many bytes one read asks for at most.
const PIECE: usize = 8192;

/// The files of the system, and standard input. It tells nothing of what it holds: contracts see its counts of faults alone.
#[derive(Drop)]
pub struct FileStore<R> {
    rt: R,
    read_faults: u64,
    write_faults: u64,
}

impl<R> Model for FileStore<R> {
    ghost use Rattle.std.specs.Prelude.{◌≤◌};
    ghost use Rattle.cbi_base.specs.Faults.{FaultCounts, last_count};

    ghost Value = { FaultCounts };

    ghost view = { λ s. record { read_faults = s.read_faults; write_faults = s.write_faults } };

    ghost invariant = { λ s. (s.read_faults ≤ last_count) × (s.write_faults ≤ last_count) };
}

impl<R> FileStore<R> {
    /// The files that this runtime opens.
    pub fn new(rt: R) -> FileStore<R>
        ensures { result ≡ record { read_faults = 0; write_faults = 0 } }
    {
        FileStore {
            rt,
            read_faults: 0,
            write_faults: 0,
        }
    }
}

/// All that the source has left where it is at most so many bytes, and else the first of them.
fn read_up_to<S: Read + Drop>(alloc: Global, source: S, most: u64) -> io::Result<Vec<u8>>
    ensures limit { IfOk result (λ v. vec_len v ≤ most) }
    ensures bytes { IfOk result (λ v. IfSome (S.remaining source) (λ xs. v.items ≡ take most xs)) }
{
    let mut source = source.take(most);
    let mut bytes = Vec::new(alloc);
    let mut piece = [0u8; PIECE];
    for _ in 0..u64::MAX {
        match source.read(&mut piece) {
            Ok(0) => return Ok(bytes),
            Ok(count) => bytes.extend_from_slice(&piece[..count])?,
            Err(e) if e.kind() == ErrorKind::Interrupted => {}
            Err(e) => return Err(e),
        }
    }
    // Only reads that were interrupted again and again come here.
    Err(io::Error::from(ErrorKind::Interrupted))
}

fn read_named<R: Files + Input>(alloc: Global, rt: &R, name: &str, most: u64) -> io::Result<Vec<u8>>
    ensures { IfOk result (λ v. vec_len v ≤ most) }
{
    if name == STANDARD_INPUT {
        return read_up_to(alloc, rt.reader(), most);
    }
    read_up_to(alloc, fs::open(rt, name)?, most)
}

impl<R: Files + Input + Drop> Store for FileStore<R> {
    ghost holds = { λ _. None };

    ghost read_faults = { λ s. s.read_faults };

    ghost write_faults = { λ s. s.write_faults };

    ghost is_sound = { λ _. ⊥ };

    fn read(&mut self, alloc: Global, name: &str, max: u64) -> Result<Vec<u8>, StoreError>
        ensures limit { IfOk result (λ v. vec_len v ≤ max + 1) }
        ensures ok { OnOk result (self.new ≡ self.old) }
        ensures failed { IsErrOf result StoreError.Failed → self.new ≡ record self.old { read_faults = next_count self.old.read_faults } }
        ensures memory { IsErrOf result StoreError.Memory → self.new ≡ self.old }
        ensures never_falls { self.old.read_faults ≤ self.new.read_faults }
        ensures in_range { self.new.read_faults ≤ last_count }
    {
        match read_named(alloc, &self.rt, name, max.saturating_add(1)) {
            Ok(bytes) => Ok(bytes),
            Err(e) if e.kind() == ErrorKind::OutOfMemory => Err(StoreError::Memory),
            Err(_) => {
                self.read_faults = self.read_faults.saturating_add(1);
                Err(StoreError::Failed)
            }
        }
    }

    fn write(&mut self, _alloc: Global, name: &str, bytes: &[u8]) -> Result<(), StoreError>
        ensures input { name.now ≡ 45 ∷ [] → IsErrOf result StoreError.Failed }
        ensures ok { OnOk result (self.new ≡ self.old) }
        ensures failed { IsErrOf result StoreError.Failed → self.new ≡ record self.old { write_faults = next_count self.old.write_faults } }
        ensures no_memory { result ≢ Err StoreError.Memory }
        ensures never_falls { self.old.write_faults ≤ self.new.write_faults }
        ensures in_range { self.new.write_faults ≤ last_count }
    {
        if name == STANDARD_INPUT || fs::write(&self.rt, name, bytes).is_err() {
            self.write_faults = self.write_faults.saturating_add(1);
            return Err(StoreError::Failed);
        }
        Ok(())
    }

    ghost tells = { λ _ never. absurd never };
}
