ghost use Rattle.std.specs.Prelude.{◌≡◌, ◌<◌, [], ◌∷◌, List, OnOk, OnErr};
ghost use Rattle.c_types_expressions.specs.Indexed.{IsIndex, IsPopped, IsPushed, IsSame, last_of, stack_of};
ghost use Rattle.c_types_expressions.specs.Names.{declared_meaning, is_here};
ghost use Rattle.c_types_expressions.specs.declared.names.ScopeEntry.{ScopeEntry};
ghost use Rattle.c_types_expressions.specs.declared.names.ScopeEntry.TheVariants.{Opens, Declares};

use crate::names::{Meaning, ScopeEntry};
use cbi_base::{Memory, Name};
use std::alloc::Global;
use std::collections::HashMap;

/// A declaration of a name: how many scopes were opened around it, and what it means.
#[derive(Clone, Copy, Drop)]
pub struct ScopedMeaning {
    pub depth: usize,
    pub meaning: Meaning,
}

/// The declarations of each name that are in scope, the latest last.
type Stacks = HashMap<Vec<u8>, Vec<ScopedMeaning>>;

/// The names in scope, as they are looked up: what each means, and how many scopes are open.
#[derive(Drop)]
pub struct Index {
    alloc: Global,
    stacks: Stacks,
    depth: usize,
}

/// The latest declaration of a name.
fn latest(stacks: &Stacks, name: &[u8]) -> Option<ScopedMeaning>
    ensures { result ≡ last_of (stack_of stacks.now.entries name.now) }
{
    match stacks.get(name) {
        None => None,
        Some(stack) => stack.as_slice().last().copied(),
    }
}

/// One more declaration of a name. After `Memory` each name has those that it had.
fn push(
    alloc: Global,
    stacks: &mut Stacks,
    name: &[u8],
    declared: ScopedMeaning,
) -> Result<(), Memory>
    ensures ok { OnOk result (IsPushed name.now declared stacks.old.entries stacks.new.entries) }
    ensures err { OnErr result (IsSame stacks.old.entries stacks.new.entries) }
{
    if let Some(stack) = stacks.get_mut(name) {
        stack.push(declared)?;
        return Ok(());
    }
    let mut stack = Vec::new(alloc);
    stack.push(declared)?;
    stacks.insert(Vec::from_slice(alloc, name)?, stack)?;
    Ok(())
}

/// Takes the latest declaration of a name.
fn pop(stacks: &mut Stacks, name: &[u8])
    ensures { IsPopped name.now stacks.old.entries stacks.new.entries }
{
    if let Some(stack) = stacks.get_mut(name) {
        stack.pop();
    }
}

impl Index {
    /// No names.
    pub fn new(alloc: Global) -> Index
        ensures { IsIndex [] result }
    {
        Index {
            alloc,
            stacks: HashMap::new(alloc),
            depth: 0,
        }
    }

    /// What a name was declared as.
    pub fn find(&self, name: &Name) -> Option<Meaning>
        ensures { (entries : List ScopeEntry) → IsIndex entries self.now → result ≡ declared_meaning name.now entries }
    {
        match latest(&self.stacks, name.bytes()) {
            None => None,
            Some(declared) => Some(declared.meaning),
        }
    }

    /// Whether the name is declared in the latest scope.
    pub fn is_here(&self, name: &Name) -> bool
        ensures { (entries : List ScopeEntry) → IsIndex entries self.now → result ≡ is_here name.now entries }
    {
        match latest(&self.stacks, name.bytes()) {
            None => false,
            Some(declared) => declared.depth == self.depth,
        }
    }

    /// A name is declared. After `Memory` each name means what it did.
    pub fn declare(&mut self, name: &Name, meaning: Meaning) -> Result<(), Memory>
        ensures ok { OnOk result ((entries : List ScopeEntry) → IsIndex entries self.old → IsIndex (Declares name.now meaning ∷ entries) self.new) }
        ensures err { OnErr result ((entries : List ScopeEntry) → IsIndex entries self.old → IsIndex entries self.new) }
    {
        let declared = ScopedMeaning {
            depth: self.depth,
            meaning,
        };
        push(self.alloc, &mut self.stacks, name.bytes(), declared)?;
        Ok(())
    }

    /// A scope begins.
    pub fn open(&mut self)
        requires { self.old.depth < usize.MAX }
        ensures { (entries : List ScopeEntry) → IsIndex entries self.old → IsIndex (Opens ∷ entries) self.new }
    {
        self.depth += 1;
    }

    /// Takes the latest entry.
    pub fn take(&mut self, entry: &ScopeEntry)
        ensures { (entries : List ScopeEntry) → IsIndex (entry.now ∷ entries) self.old → IsIndex entries self.new }
    {
        match entry {
            ScopeEntry::Opens => self.depth = self.depth.saturating_sub(1),
            ScopeEntry::Declares { name, .. } => pop(&mut self.stacks, name.bytes()),
        }
    }
}
