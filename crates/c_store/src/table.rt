ghost use Rattle.std.specs.Prelude.{◌≡◌, None, is_some, OnOk, OnErr, IfSome, IfNone, IsTrue, IsFalse, Ok};
ghost use Rattle.std.specs.Option.{option_copied};
ghost use Rattle.std.specs.FinMap as map;
ghost use Rattle.cbi_base.specs.Objects.{is_heap_start};
ghost use Rattle.c_store.specs.Stacked.{IsRising, IsApart, StandsAt, IsMissing};
ghost use Rattle.c_store.specs.Written.{stored_in, filled_map, state_or_trap};

use crate::block::Block;
use crate::places::{Guess, Notes, is_above, place_by, search};
use crate::word::Word;
use cbi_base::{Class, Memory, Trap};
use std::alloc::Global;
use std::collections::HashMap;
use std::marker::Model;

/// The live objects by their numbers. Contracts see them as a finite map.
///
/// Objects of functions die in the reverse order of their making, and globals and texts live to the end. So they stand one
/// after another, in the order of their numbers, where a local of the running function and a global are found without a
/// search. Those of `malloc` die in any order and stand in a map of their own.
#[derive(Drop)]
pub struct Table {
    numbers: Vec<u64>,
    blocks: Vec<Block>,
    notes: Notes,
    heap: HashMap<u64, Block>,
}

impl Model for Table {
    ghost use Rattle.std.specs.FinMap.{FinMap};
    ghost use Rattle.std.specs.Ordering.{nat_cmp};
    ghost use Rattle.cbi_base.specs.Objects.{Object};
    ghost use Rattle.c_store.specs.Codes.{live_code};
    ghost use Rattle.c_store.specs.Stacked.{map_of, IsStacked};

    ghost Value = { FinMap nat_cmp Object };

    ghost coded = { live_code };

    ghost view = { λ t. map_of t.numbers.items t.blocks.items t.heap.entries };

    ghost invariant = { λ t. IsStacked t.numbers.items t.blocks.items t.heap.entries };
}

/// Where the number stands among those in order; None where it stands apart, or nowhere.
#[inline(always)]
#[tactic(auto, using(crate::proofs::StackedLemmas::apart_is_missing))]
fn place_of(
    numbers: &[u64],
    notes: &Notes,
    heap: &HashMap<u64, Block>,
    number: u64,
) -> Option<usize>
    requires rising { IsRising numbers.now }
    requires apart { IsApart numbers.now heap.now.entries }
    ensures found { IfSome result (StandsAt numbers.now number) }
    ensures missing { IfNone result (IsMissing numbers.now number) }
{
    if let Some(place) = place_by(Guess::Any, numbers, notes, number) {
        return Some(place);
    }
    if heap.contains_key(&number) {
        return None;
    }
    search(numbers, number)
}

impl Table {
    pub fn new(alloc: Global) -> Table
        ensures { result ≡ map.empty }
    {
        Table {
            numbers: Vec::new(alloc),
            blocks: Vec::new(alloc),
            notes: Notes::new(),
            heap: HashMap::new(alloc),
        }
    }

    /// The object of the number, where it lives.
    #[inline(always)]
    pub fn get(&self, number: u64) -> Option<&Block>
        ensures { option_copied result ≡ map.get self.now number }
    {
        if let Some(block) = self.quick(Guess::Any, number) {
            return Some(block);
        }
        self.get_by_search(number)
    }

    /// The same, looked for without a guess.
    #[inline(never)]
    #[tactic(auto, using(crate::proofs::StackedLemmas::got_there, crate::proofs::StackedLemmas::heap_there, crate::proofs::StackedLemmas::nothing_there))]
    pub fn get_by_search(&self, number: u64) -> Option<&Block>
        ensures { option_copied result ≡ map.get self.now number }
    {
        if let Some(block) = self.heap.get(&number) {
            return Some(block);
        }
        let place = search(self.numbers.as_slice(), number)?;
        Some(&self.blocks[place])
    }

    /// The object of the number where it is found without a search.
    #[inline(always)]
    #[tactic(auto, using(crate::proofs::StackedLemmas::got_there))]
    pub fn quick(&self, guess: Guess, number: u64) -> Option<&Block>
        ensures { IfSome result (λ b. map.get self.now number ≡ Some b.now) }
    {
        let place = place_by(guess, self.numbers.as_slice(), &self.notes, number)?;
        Some(&self.blocks[place])
    }

    /// Puts an object at a number that no live one has.
    #[inline(always)]
    pub fn insert(&mut self, number: u64, block: Block) -> Result<(), Memory>
        requires { map.get self.old number ≡ None }
        ensures ok { OnOk result (self.new ≡ map.insert self.old number block) }
        ensures err { OnErr result (self.new ≡ self.old) }
    {
        if block.class() == Class::Heap || !is_above(number, self.numbers.as_slice()) {
            self.heap.insert(number, block)?;
            return Ok(());
        }
        let place = self.numbers.len();
        self.numbers.push(number)?;
        let Ok(()) = self.blocks.push(block) else {
            self.numbers.pop();
            return Err(Memory);
        };
        self.notes.note(self.numbers.as_slice(), place, number);
        Ok(())
    }

    /// Takes out the object of a number.
    #[inline(always)]
    pub fn remove(&mut self, number: u64) -> Option<Block>
        ensures value { result ≡ map.get self.old number }
        ensures rest { self.new ≡ map.remove self.old number }
    {
        let Some(place) = place_of(self.numbers.as_slice(), &self.notes, &self.heap, number) else {
            return self.heap.remove(&number);
        };
        if place + 1 == self.numbers.len() {
            self.numbers.pop();
            self.notes.look_at_last(self.numbers.as_slice());
            return self.blocks.pop();
        }
        self.numbers.remove(place);
        self.notes.look_at_last(self.numbers.as_slice());
        let block = self.blocks.remove(place);
        Some(block)
    }

    /// Stores a value in a cell of an object, where it is found without a search and can be written; false where nothing was done.
    #[inline(always)]
    pub fn quick_set(&mut self, guess: Guess, number: u64, offset: u32, value: Word) -> bool
        ensures done { IsTrue result → stored_in number offset value (map.get self.old number) self.old ≡ Ok self.new }
        ensures nothing { IsFalse result → self.new ≡ self.old }
    {
        let Some(place) = place_by(guess, self.numbers.as_slice(), &self.notes, number) else {
            return false;
        };
        let block = &mut self.blocks[place];
        block.quick_set(offset, value)
    }

    /// Stores a value in a cell of an object.
    #[inline(never)]
    pub fn set_by_search(&mut self, number: u64, offset: u32, value: Word) -> Result<(), Trap>
        ensures value { stored_in number offset value (map.get self.old number) self.old ≡ state_or_trap result self.new }
        ensures trap { OnErr result (self.new ≡ self.old) }
    {
        if let Some(block) = self.heap.get_mut(&number) {
            return block.set(offset, value);
        }
        let Some(place) = search(self.numbers.as_slice(), number) else {
            return Err(Trap::Dead);
        };
        let block = &mut self.blocks[place];
        block.set(offset, value)
    }

    /// Each cell of the object, where it lives, has this value from now on.
    pub fn fill(&mut self, number: u64, value: Word)
        ensures { self.new ≡ filled_map number value (map.get self.old number) self.old }
    {
        let Some(place) = place_of(self.numbers.as_slice(), &self.notes, &self.heap, number) else {
            let Some(block) = self.heap.get_mut(&number) else {
                return;
            };
            block.fill(value);
            return;
        };
        let block = &mut self.blocks[place];
        block.fill(value);
    }

    /// Whether the object of the number lives.
    pub fn lives(&self, number: u64) -> bool
        ensures { result ≡ is_some (map.get self.now number) }
    {
        self.get(number).is_some()
    }

    /// Whether the object of the number lives and is one of `malloc`.
    pub fn is_heap(&self, number: u64) -> bool
        ensures { result ≡ is_heap_start 0 (map.get self.now number) }
    {
        match self.get(number) {
            Some(block) => block.class() == Class::Heap,
            None => false,
        }
    }
}
