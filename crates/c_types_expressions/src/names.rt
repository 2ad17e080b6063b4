ghost use Rattle.std.specs.Prelude.{◌≡◌, [], ◌∷◌, OnOk, MatchOption};
ghost use Rattle.c_types_expressions.specs.Names.{declared_meaning, meaning_of, is_here, is_reserved, is_name_taken};
ghost use Rattle.c_types_expressions.specs.declared.names.ScopeEntry.TheVariants.{Opens, Declares};

use crate::index::Index;
use c_types_rules::{Library, library_named};
use cbi_base::{Memory, Name};
use std::alloc::Global;
use std::marker::Model;

/// What a name means: a variable, a function or a struct by its number, or a function of the library.
#[derive(Clone, Copy)]
pub enum Meaning {
    Variable { index: u32 },
    Function { index: u32 },
    Library { function: Library },
    Struct { index: u32 },
}

/// The beginning of a scope, or a declared name.
#[derive(Drop)]
pub enum ScopeEntry {
    Opens,
    Declares { name: Name, meaning: Meaning },
}

/// The names that are in scope, the latest first, with the beginning of each scope.
#[derive(Drop)]
pub struct Names {
    entries: Vec<ScopeEntry>,
    index: Index,
}

impl Model for Names {
    ghost use Rattle.std.specs.Prelude.{List, reverse};
    ghost use Rattle.c_types_expressions.specs.declared.names.ScopeEntry.{ScopeEntry};
    ghost use Rattle.c_types_expressions.specs.Indexed.{IsIndex};

    ghost Value = { List ScopeEntry };

    ghost view = { λ n. reverse n.entries.items };

    ghost invariant = { λ n. IsIndex (reverse n.entries.items) n.index };
}

/// Whether the name is one of the library.
pub fn is_reserved(name: &Name) -> bool
    ensures { result ≡ is_reserved name.now }
{
    library_named(name.bytes()).is_some()
}

impl Names {
    /// No names.
    pub fn new(alloc: Global) -> Names
        ensures { result ≡ [] }
    {
        Names {
            entries: Vec::new(alloc),
            index: Index::new(alloc),
        }
    }

    /// What a name was declared as.
    pub fn find(&self, name: &Name) -> Option<Meaning>
        ensures { result ≡ declared_meaning name.now self.now }
    {
        self.index.find(name)
    }

    /// What a name means, a function of the library too.
    pub fn meaning_of(&self, name: &Name) -> Option<Meaning>
        ensures { result ≡ meaning_of name.now self.now }
    {
        if let Some(meaning) = self.find(name) {
            return Some(meaning);
        }
        match library_named(name.bytes()) {
            None => None,
            Some(function) => Some(Meaning::Library { function }),
        }
    }

    /// Whether the name is declared in the latest scope.
    pub fn is_here(&self, name: &Name) -> bool
        ensures { result ≡ is_here name.now self.now }
    {
        self.index.is_here(name)
    }

    /// Whether the name is one of the library or declared in the latest scope.
    pub fn is_taken(&self, name: &Name) -> bool
        ensures { result ≡ is_name_taken name.now self.now }
    {
        is_reserved(name) || self.is_here(name)
    }

    /// A name is declared.
    pub fn declare(&mut self, name: &Name, meaning: Meaning) -> Result<(), Memory>
        ensures { OnOk result (self.new ≡ Declares name.now meaning ∷ self.old) }
    {
        let own = name.try_clone()?;
        self.entries.reserve(1)?;
        self.index.declare(name, meaning)?;
        self.entries
            .push(ScopeEntry::Declares { name: own, meaning })?;
        Ok(())
    }

    /// A scope begins.
    pub fn open(&mut self) -> Result<(), Memory>
        ensures { OnOk result (self.new ≡ Opens ∷ self.old) }
    {
        self.entries.reserve(1)?;
        self.index.open();
        self.entries.push(ScopeEntry::Opens)?;
        Ok(())
    }

    /// Takes the latest entry.
    pub fn pop(&mut self) -> Option<ScopeEntry>
        ensures { MatchOption result ((self.old ≡ []) × (self.new ≡ [])) (λ entry. self.old ≡ entry ∷ self.new) }
    {
        let Some(entry) = self.entries.pop() else {
            return None;
        };
        self.index.take(&entry);
        Some(entry)
    }
}
