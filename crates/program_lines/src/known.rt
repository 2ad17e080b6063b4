ghost use Rattle.std.specs.Prelude.{◌≡◌, ◌⊎◌, ◌↔◌, ℕ, List, [], OnOk, OnErr, IsTrue};
ghost use Rattle.program_lines.specs.Known.{Knows};

use cbi_base::Memory;
use std::alloc::Global;
use std::collections::BTreeSet;
use std::marker::Model;

/// A set of names, in which one is found without going over all. Contracts see a list of them.
#[derive(Drop)]
pub struct KnownNames {
    alloc: Global,
    names: BTreeSet<Vec<u8>>,
}

impl Model for KnownNames {
    ghost use Rattle.std.specs.Prelude.{ℕ, List, map};

    ghost Value = { List (List ℕ) };

    ghost view = { λ k. map (λ name. name.items) k.names.keys };
}

impl KnownNames {
    /// No names.
    pub fn new(alloc: Global) -> KnownNames
        ensures { result ≡ [] }
    {
        KnownNames {
            alloc,
            names: BTreeSet::new(alloc),
        }
    }

    /// Whether the name is one of these.
    pub fn has(&self, name: &[u8]) -> bool
        ensures { IsTrue result ↔ Knows self.now name.now }
    {
        self.names.contains(name)
    }

    /// Adds a name. After `Memory` all is as before.
    pub fn add(&mut self, name: &[u8]) -> Result<(), Memory>
        ensures ok { OnOk result ((other : List ℕ) → Knows self.new other ↔ ((name.now ≡ other) ⊎ Knows self.old other)) }
        ensures err { OnErr result (self.new ≡ self.old) }
    {
        let name = Vec::from_slice(self.alloc, name)?;
        self.names.insert(name)?;
        Ok(())
    }
}
