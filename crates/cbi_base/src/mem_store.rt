ghost use Rattle.std.specs.Prelude.{◌≡◌, [], ◌≤◌, ◌↔◌, ◌⊎◌, ◌+◌, take, IfOk, OnOk, OnErr, IsErrOf, IsNone, IsTrue, Some, refl};
ghost use Rattle.std.specs.FinMap.{get, insert};
ghost use Rattle.std.specs.List.{position};
ghost use Rattle.std.specs.Option.{option_copied};
ghost use Rattle.cbi_base.specs.Faults.{last_count, next_count};
ghost use Rattle.cbi_base.specs.Failing.{IsToFail, NoneIsToFail};
ghost use Rattle.cbi_base.specs.Store.{read_of};
ghost use Rattle.cbi_base.specs.MemStore.{have_distinct_names, held_of, is_file_named};

use crate::store::{Store, StoreError};
use std::alloc::{AllocError, Global};
use std::marker::Model;

/// A named list of bytes.
#[derive(Debug, Drop)]
pub struct File {
    pub name: String,
    pub bytes: Vec<u8>,
}

/// A store in memory: it keeps its files, and fails at the calls that it is told to.
#[derive(Debug, Drop)]
pub struct MemStore {
    files: Vec<File>,
    calls: u64,
    failing: Vec<u64>,
    read_faults: u64,
    write_faults: u64,
}

impl Model for MemStore {
    ghost use Rattle.std.specs.Prelude.{◌≤◌};
    ghost use Rattle.cbi_base.specs.Faults.{last_count};
    ghost use Rattle.cbi_base.specs.MemStore.{StoreState, coded_state, held_of};

    ghost Value = { StoreState };

    ghost coded = { coded_state };

    ghost view = { λ s. record {
      held = held_of s.files.items;
      calls = s.calls;
      failing = s.failing.items;
      read_faults = s.read_faults;
      write_faults = s.write_faults;
    } };

    ghost invariant = { λ s. (s.read_faults ≤ last_count) × (s.write_faults ≤ last_count) };
}

/// The place of the file of this name.
fn place_of(files: &[File], name: &str) -> Option<usize>
    ensures { result ≡ position (is_file_named name.now) files.now }
{
    files.iter().position(|file| name == file.name.as_str())
}

/// The bytes of the file of this name.
fn bytes_in<'a>(files: &'a [File], name: &str) -> Option<&'a [u8]>
    ensures { option_copied result ≡ get (held_of files.now) name.now }
{
    match place_of(files, name) {
        None => None,
        Some(place) => Some(files[place].bytes.as_slice()),
    }
}

/// Gives the file of this name these bytes, or puts it behind the others.
fn put_file(
    alloc: Global,
    files: &mut Vec<File>,
    name: &str,
    bytes: &[u8],
) -> Result<(), AllocError>
    ensures ok { OnOk result (held_of files.new.items ≡ insert (held_of files.old.items) name.now bytes.now) }
    ensures err { OnErr result (files.new.items ≡ files.old.items) }
{
    let bytes = Vec::from_slice(alloc, bytes)?;
    match place_of(files.as_slice(), name) {
        None => {
            let name = String::from_str(alloc, name)?;
            files.push(File { name, bytes })?;
        }
        Some(place) => {
            let file = &mut files[place];
            file.bytes = bytes;
        }
    }
    Ok(())
}

/// All bytes where they are at most `max`, and else the first `max + 1`.
fn first_bytes(bytes: &[u8], max: u64) -> &[u8]
    ensures { result.now ≡ take (max + 1) bytes.now }
{
    if bytes.len() as u64 <= max {
        return bytes;
    }
    &bytes[..max as usize + 1]
}

impl MemStore {
    /// It holds the files. The calls whose numbers, from 1 and over reads and writes together, are in `failing` are to fail.
    pub fn new(files: Vec<File>, failing: Vec<u64>) -> MemStore
        requires { IsTrue (have_distinct_names files.items) }
        ensures state { result ≡ record { held = held_of files.items; calls = 0; failing = failing.items; read_faults = 0; write_faults = 0 } }
        ensures sound { failing.items ≡ [] → ⟦<MemStore as Store>⟧.is_sound result }
    {
        MemStore {
            files,
            calls: 0,
            failing,
            read_faults: 0,
            write_faults: 0,
        }
    }

    /// The bytes of the name; None exactly where it isn't held.
    pub fn bytes_of(&self, name: &str) -> Option<&[u8]>
        ensures { option_copied result ≡ get self.now.held name.now }
    {
        bytes_in(&self.files, name)
    }
}

#[tactic(auto, using(crate::proofs::FaultLemmas::NoneIsToFail_next))]
impl Store for MemStore {
    ghost holds = { λ s. Some s.held };

    ghost read_faults = { λ s. s.read_faults };

    ghost write_faults = { λ s. s.write_faults };

    ghost is_sound = { λ s. NoneIsToFail s.failing s.calls };

    fn read(&mut self, alloc: Global, name: &str, max: u64) -> Result<Vec<u8>, StoreError>
        ensures ok { IfOk result (λ v. read_of self.old.held name.now max ≡ Some v.items) }
        ensures fails { IsErrOf result StoreError.Failed ↔ (IsToFail self.old.failing self.old.calls ⊎ IsNone (get self.old.held name.now)) }
        ensures after { self.new ≡ record self.old { calls = next_count self.old.calls; read_faults = self.new.read_faults } }
        ensures counted { IsErrOf result StoreError.Failed → self.new.read_faults ≡ next_count self.old.read_faults }
        ensures ok_count { OnOk result (self.new.read_faults ≡ self.old.read_faults) }
        ensures memory_count { IsErrOf result StoreError.Memory → self.new.read_faults ≡ self.old.read_faults }
        ensures never_falls { self.old.read_faults ≤ self.new.read_faults }
        ensures in_range { self.new.read_faults ≤ last_count }
        ensures sound { NoneIsToFail self.old.failing self.old.calls → NoneIsToFail self.new.failing self.new.calls }
    {
        self.calls = self.calls.saturating_add(1);
        if self.failing.contains(&self.calls) {
            self.read_faults = self.read_faults.saturating_add(1);
            return Err(StoreError::Failed);
        }
        let Some(bytes) = bytes_in(self.files.as_slice(), name) else {
            self.read_faults = self.read_faults.saturating_add(1);
            return Err(StoreError::Failed);
        };
        Ok(Vec::from_slice(alloc, first_bytes(bytes, max))?)
    }

    fn write(&mut self, alloc: Global, name: &str, bytes: &[u8]) -> Result<(), StoreError>
        ensures ok { OnOk result (self.new ≡ record self.old { held = insert self.old.held name.now bytes.now; calls = next_count self.old.calls }) }
        ensures fails { IsErrOf result StoreError.Failed ↔ IsToFail self.old.failing self.old.calls }
        ensures failed { IsErrOf result StoreError.Failed
            → self.new ≡ record self.old { calls = next_count self.old.calls; write_faults = next_count self.old.write_faults } }
        ensures memory { IsErrOf result StoreError.Memory → self.new ≡ record self.old { calls = next_count self.old.calls } }
        ensures never_falls { self.old.write_faults ≤ self.new.write_faults }
        ensures in_range { self.new.write_faults ≤ last_count }
        ensures sound { NoneIsToFail self.old.failing self.old.calls → NoneIsToFail self.new.failing self.new.calls }
    {
        self.calls = self.calls.saturating_add(1);
        if self.failing.contains(&self.calls) {
            self.write_faults = self.write_faults.saturating_add(1);
            return Err(StoreError::Failed);
        }
        put_file(alloc, &mut self.files, name, bytes)?;
        Ok(())
    }

    ghost tells = { λ _ _. refl };
}
