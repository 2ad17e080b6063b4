ghost use Rattle.std.specs.Prelude.{◌≡◌, ◌≤◌, Ok, IfOk, ◌+◌, OnOk, OnErr, IfSome, IsTrue, IsFalse, Some, All, drop, length, option_map, replicate};
ghost use Rattle.std.specs.FinMap.{get};
ghost use Rattle.cbi_base.specs.declared.scalar.Scalar.TheVariants.{Undefined};
ghost use Rattle.cbi_base.specs.Words.{no_objects, has_room, one_object_more, made_with, object_killed, object_made_undefined, loaded_value, value_stored};
ghost use Rattle.cbi_base.specs.Words.{object_released, moved_pointer, pointer_comparison};
ghost use Rattle.cbi_base.specs.Words.{pointer_difference, live_cells, cell_limit, found_cell, within_one, LiesIn, first_cells, all_made, all_killed};
ghost use Rattle.cbi_base.specs.Words.{object_filled};
ghost use Rattle.cbi_base.specs.declared.scalar.Kind.TheVariants.{Int};
ghost use Rattle.cbi_base.specs.declared.scalar.Class.TheVariants.{Local};
ghost use Rattle.c_store.specs.Held.{IsHeldScalar};
ghost use Rattle.c_store.specs.Made.{IsMade, IsObject, cells_at_start, last_object_undone, all_undone};
ghost use Rattle.c_store.specs.Word.{cell_of};
ghost use Rattle.c_store.specs.Written.{state_or_trap};

use crate::block::Block;
use crate::places::Guess;
use crate::pointers::{check_pointers, elements, in_order, move_in, offset_in, same_place};
use crate::table::Table;
use crate::word::Word;
use cbi_base::{Class, Memory, Order, Scalar, Trap, Want};
use std::alloc::Global;
use std::marker::Model;

/// The most live cells.
const CELL_LIMIT: u32 = 4194304;

/// The most objects that are made.
const OBJECT_LIMIT: u64 = 1 << 62;

/// The number of a new object, or no room for it: the live cells would pass their bound, or as many objects were made as
/// there may be.
#[derive(Clone, Copy, Debug, PartialEq, Eq)]
pub enum Made {
    Object { number: u64 },
    Full,
}

/// The objects of a run: how many were made so far, and those that live by their numbers. Each call answers as the
/// definition of objects does. Only the calls that make objects take memory, and after a trap all is as before. Each call
/// on scalars has a form on words, which a run uses.
#[derive(Drop)]
pub struct Objects {
    alloc: Global,
    made: u64,
    cells: u32,
    table: Table,
}

impl Model for Objects {
    ghost use Rattle.cbi_base.specs.Objects.{Objects};
    ghost use Rattle.c_store.specs.Codes.{objects_code};
    ghost use Rattle.c_store.specs.Kept.{AreObjectsKept};

    ghost Value = { Objects };

    ghost coded = { objects_code };

    ghost view = { λ s. record { made = s.made; live = s.table } };

    ghost invariant = { λ s. AreObjectsKept s.cells (record { made = s.made; live = s.table }) };
}

/// What a load finds in a cell, of the kind that it wants.
fn find(want: Want, cell: Option<Word>) -> Result<Word, Trap>
    ensures { result ≡ found_cell want cell }
{
    let Some(word) = cell else {
        return Err(Trap::Bounds);
    };
    match (want, word.scalar()) {
        (_, Scalar::Undefined) => Err(Trap::Undefined),
        (Want::Number { kind: wanted }, Scalar::Number { kind, .. }) if wanted == kind => Ok(word),
        (Want::Pointer, Scalar::Place { .. } | Scalar::Null) => Ok(word),
        _ => Err(Trap::WrongKind),
    }
}

/// The words that hold these scalars.
fn words_of(alloc: Global, values: &[Scalar]) -> Result<Vec<Word>, Memory>
    requires { All IsHeldScalar values.now }
    ensures { IfOk result (λ words. words.items ≡ values.now) }
{
    let mut words = Vec::with_capacity(alloc, values.len())?;
    for value in values {
        words.push(Word::of(*value))?;
    }
    Ok(words)
}

/// The arguments behind the first one.
#[inline(always)]
fn behind_first(arguments: &[Word]) -> &[Word]
    ensures { result.now ≡ drop 1 arguments.now }
{
    match arguments {
        [] => arguments,
        [_, rest @ ..] => rest,
    }
}

impl Objects {
    /// No objects. Takes no memory.
    pub fn new(alloc: Global) -> Objects
        ensures { result ≡ no_objects }
    {
        Objects {
            alloc,
            made: 0,
            cells: 0,
            table: Table::new(alloc),
        }
    }

    /// How many cells live.
    pub fn live_cells(&self) -> u32
        ensures value { result ≡ live_cells self.now }
        ensures limit { result ≤ cell_limit }
    {
        self.cells
    }

    /// Whether one more object of so many cells fits.
    #[inline(always)]
    fn has_room(&self, cells: usize) -> bool
        ensures { result ≡ has_room cells self.now }
    {
        cells <= (CELL_LIMIT - self.cells) as usize && self.made < OBJECT_LIMIT
    }

    /// One more object, for which there is room.
    #[inline(always)]
    fn add(&mut self, block: Block) -> Result<Made, Memory>
        requires { IsTrue (has_room (length block.cells) self.old) }
        ensures made { IfOk result (IsMade (Some (one_object_more block.class block.cells self.old)) self.old self.new) }
        ensures back { OnOk result (last_object_undone self.new ≡ self.old) }
        ensures memory { OnErr result (self.new ≡ self.old) }
    {
        let number = self.made;
        let cells = block.len() as u32;
        self.table.insert(number, block)?;
        self.made += 1;
        self.cells += cells;
        Ok(Made::Object { number })
    }

    /// A new object of so many undefined cells.
    pub fn make(&mut self, class: Class, cells: u32) -> Result<Made, Memory>
        requires { 1 ≤ cells }
        ensures made { IfOk result (IsMade (made_with class (replicate cells Undefined) self.old) self.old self.new) }
        ensures memory { OnErr result (self.new ≡ self.old) }
    {
        if !self.has_room(cells as usize) {
            return Ok(Made::Full);
        }
        let block = Block::undefined(self.alloc, class, cells)?;
        self.add(block)
    }

    /// A new object with these cells.
    pub fn make_of_words(&mut self, class: Class, values: &[Word]) -> Result<Made, Memory>
        requires { 1 ≤ length values.now }
        ensures made { IfOk result (IsMade (made_with class values.now self.old) self.old self.new) }
        ensures memory { OnErr result (self.new ≡ self.old) }
    {
        if !self.has_room(values.len()) {
            return Ok(Made::Full);
        }
        let cells = values.to_vec(self.alloc)?;
        self.add(Block::of_words(class, cells))
    }

    /// A new object with these cells.
    pub fn make_fixed(&mut self, class: Class, values: &[Scalar]) -> Result<Made, Memory>
        requires some { 1 ≤ length values.now }
        requires held { All IsHeldScalar values.now }
        ensures made { IfOk result (IsMade (made_with class values.now self.old) self.old self.new) }
        ensures memory { OnErr result (self.new ≡ self.old) }
    {
        if !self.has_room(values.len()) {
            return Ok(Made::Full);
        }
        let cells = words_of(self.alloc, values)?;
        self.add(Block::of_words(class, cells))
    }

    /// The object of a variable of this size, with the first of the arguments in its first cell where there is one.
    #[inline(always)]
    fn make_local(&mut self, arguments: &[Word], size: u32) -> Result<Made, Memory>
        ensures made { IfOk result (IsMade (made_with Local (cells_at_start arguments.now size) self.old) self.old self.new) }
        ensures back { IfOk result (λ m. IsObject m → last_object_undone self.new ≡ self.old) }
        ensures memory { OnErr result (self.new ≡ self.old) }
    {
        let first = arguments.first().copied();
        let cells = match first {
            Some(_) => size.max(1),
            None => size,
        };
        if !self.has_room(cells as usize) {
            return Ok(Made::Full);
        }
        let block = match first {
            Some(argument) => Block::beginning(self.alloc, Class::Local, argument, size)?,
            None => Block::undefined(self.alloc, Class::Local, size)?,
        };
        self.add(block)
    }

    /// The object that was made last is as if it had not been made.
    fn undo(&mut self)
        requires { 1 ≤ self.old.made }
        ensures { self.new ≡ last_object_undone self.old }
    {
        let number = self.made - 1;
        self.kill(number);
        self.made = number;
    }

    /// So many objects that were made last are as if they had not been made.
    fn undo_all(&mut self, count: usize)
        requires { count ≤ self.old.made }
        ensures { self.new ≡ all_undone count self.old }
    {
        let mut left = count;
        while left > 0 {
            self.undo();
            left -= 1;
        }
    }

    /// The objects of a function's variables with these sizes, made one after another: each argument is the first cell of
    /// its variable, and all other cells are undefined. The answer is the number of the first one.
    pub fn make_locals(&mut self, arguments: &[Word], sizes: &[u32]) -> Result<Made, Memory>
        ensures made { IfOk result (IsMade (all_made (first_cells arguments.now sizes.now) self.old) self.old self.new) }
        ensures memory { OnErr result (self.new ≡ self.old) }
    {
        let first = self.made;
        let mut rest = arguments;
        for (index, size) in sizes.iter().enumerate() {
            match self.make_local(rest, *size) {
                Ok(Made::Object { .. }) => rest = behind_first(rest),
                Ok(Made::Full) => {
                    self.undo_all(index);
                    return Ok(Made::Full);
                }
                Err(memory) => {
                    self.undo_all(index);
                    return Err(memory);
                }
            }
        }
        Ok(Made::Object { number: first })
    }

    /// The object is dead from now on, where it lives.
    #[inline(always)]
    pub fn kill(&mut self, object: u64)
        ensures { self.new ≡ object_killed object self.old }
    {
        if let Some(block) = self.table.remove(object) {
            self.cells -= block.len() as u32;
        }
    }

    /// The object so many numbers behind another is dead from now on, where it lives.
    #[inline(always)]
    fn kill_behind(&mut self, first: u64, more: u32)
        ensures { self.new ≡ object_killed (first + more) self.old }
    {
        match first.checked_add(u64::from(more)) {
            Some(number) => self.kill(number),
            None => {
                let _ = &self.made;
            }
        }
    }

    /// So many objects, from the first one's number on, are dead from now on, where they live.
    pub fn kill_locals(&mut self, first: u64, count: u32)
        ensures { self.new ≡ all_killed first count self.old }
    {
        let mut left = count;
        while left > 0 {
            left -= 1;
            self.kill_behind(first, left);
        }
    }

    /// Each cell of the object, where it lives, has this value from now on.
    pub fn fill(&mut self, object: u64, value: Word)
        ensures { self.new ≡ object_filled object value self.old }
    {
        self.table.fill(object, value);
    }

    /// The cells of the object, where it lives, are undefined from now on.
    pub fn clear(&mut self, object: u64)
        ensures { self.new ≡ object_made_undefined object self.old }
    {
        self.fill(object, Word::undefined());
    }

    /// The cells of the object, where it lives.
    pub fn cells(&self, object: u64) -> Option<&[Word]>
        ensures { option_map (λ c. c.now) result ≡ option_map (λ o. o.cells) (get self.now.live object) }
    {
        match self.table.get(object) {
            Some(block) => Some(block.cells()),
            None => None,
        }
    }

    /// `free`: null does nothing, and anything but the start of a live object of `malloc` is trap BadFree.
    #[tactic(auto, unfolding(cbi_base::specs::Objects::object_released))]
    pub fn release(&mut self, pointer: Scalar) -> Result<(), Trap>
        ensures value { object_released pointer self.old ≡ state_or_trap result self.new }
        ensures trap { OnErr result (self.new ≡ self.old) }
    {
        match pointer {
            Scalar::Undefined => Err(Trap::Undefined),
            Scalar::Number { .. } => Err(Trap::Internal),
            Scalar::Null => Ok(()),
            Scalar::Place { object, offset } => {
                if offset != 0 || !self.table.is_heap(object) {
                    return Err(Trap::BadFree);
                }
                self.kill(object);
                Ok(())
            }
        }
    }

    /// `release` of a word.
    pub fn release_word(&mut self, pointer: Word) -> Result<(), Trap>
        ensures value { object_released pointer self.old ≡ state_or_trap result self.new }
        ensures trap { OnErr result (self.new ≡ self.old) }
    {
        self.release(pointer.scalar())
    }

    /// The value at a pointer, of the kind that is wanted, where it is found without a search. None tells nothing.
    #[inline(always)]
    #[tactic(auto, using(crate::proofs::Loading::loaded_there))]
    pub fn quick_load(&self, pointer: Word, want: Want) -> Option<Word>
        ensures { IfSome result (λ value. loaded_value want pointer self.now ≡ Ok value) }
    {
        let (object, offset) = pointer.place_parts()?;
        let word = self.quick_cell(Guess::Any, object, offset)?;
        if word.is_wanted(want) {
            Some(word)
        } else {
            None
        }
    }

    /// The value in the first cell of a local of the running function, of the kind that is wanted. None tells nothing.
    #[inline(always)]
    #[tactic(auto, using(crate::proofs::Loading::loaded_there))]
    pub fn local_value(&self, object: u64, want: Want) -> Option<Word>
        ensures { IfSome result (λ value. loaded_value want (Scalar.Place object 0) self.now ≡ Ok value) }
    {
        let word = self.quick_cell(Guess::Last, object, 0)?;
        if word.is_wanted(want) {
            Some(word)
        } else {
            None
        }
    }

    /// The value at a pointer, of the kind that is wanted.
    pub fn load_word(&self, pointer: Word, want: Want) -> Result<Word, Trap>
        ensures { result ≡ loaded_value want pointer self.now }
    {
        self.load_at(pointer.scalar(), want)
    }

    /// A cell that is found without a search.
    #[inline(always)]
    #[tactic(auto, using(crate::proofs::Loading::cell_there))]
    fn quick_cell(&self, guess: Guess, object: u64, offset: u32) -> Option<Word>
        ensures { IfSome result (λ word. cell_of object offset self.now ≡ Some word) }
    {
        self.table.quick(guess, object)?.cell(offset)
    }

    #[tactic(auto, unfolding(cbi_base::specs::Objects::loaded_value))]
    fn load_at(&self, pointer: Scalar, want: Want) -> Result<Word, Trap>
        ensures { result ≡ loaded_value want pointer self.now }
    {
        match pointer {
            Scalar::Undefined => Err(Trap::Undefined),
            Scalar::Number { .. } => Err(Trap::Internal),
            Scalar::Null => Err(Trap::NullUse),
            Scalar::Place { object, offset } => {
                let Some(block) = self.table.get_by_search(object) else {
                    return Err(Trap::Dead);
                };
                find(want, block.cell(offset))
            }
        }
    }

    /// The value at a pointer, of the kind that is wanted.
    pub fn load(&self, pointer: Scalar, want: Want) -> Result<Scalar, Trap>
        ensures value { result ≡ loaded_value want pointer self.now }
        ensures held { IfOk result IsHeldScalar }
    {
        let value = self.load_at(pointer, want)?;
        Ok(value.scalar())
    }

    /// Stores a value at a place.
    #[tactic(auto, using(crate::proofs::Storing::stored_place, crate::proofs::Storing::lifted), unfolding(cbi_base::specs::Objects::value_stored))]
    fn store_in(&mut self, object: u64, offset: u32, value: Word) -> Result<(), Trap>
        ensures value { value_stored (Scalar.Place object offset) value self.old ≡ state_or_trap result self.new }
        ensures trap { OnErr result (self.new ≡ self.old) }
    {
        if value.is_undefined() {
            return Err(Trap::Undefined);
        }
        self.table.set_by_search(object, offset, value)
    }

    /// Stores a value at a pointer.
    #[tactic(auto, unfolding(cbi_base::specs::Objects::value_stored))]
    fn store_at(&mut self, pointer: Scalar, value: Word) -> Result<(), Trap>
        ensures value { value_stored pointer value self.old ≡ state_or_trap result self.new }
        ensures trap { OnErr result (self.new ≡ self.old) }
    {
        if value.is_undefined() {
            return Err(Trap::Undefined);
        }
        match pointer {
            Scalar::Undefined => Err(Trap::Undefined),
            Scalar::Number { .. } => Err(Trap::Internal),
            Scalar::Null => Err(Trap::NullUse),
            Scalar::Place { object, offset } => self.store_in(object, offset, value),
        }
    }

    /// Stores a defined value at a place, where its cell is found without a search and can be written; false where nothing was done.
    #[inline(always)]
    #[tactic(auto, using(crate::proofs::Storing::stored_place, crate::proofs::Storing::lifted), unfolding(cbi_base::specs::Objects::value_stored))]
    fn quick_store_in(&mut self, guess: Guess, object: u64, offset: u32, value: Word) -> bool
        ensures done { IsTrue result → value_stored (Scalar.Place object offset) value self.old ≡ Ok self.new }
        ensures nothing { IsFalse result → self.new ≡ self.old }
    {
        if value.is_undefined() {
            return false;
        }
        self.table.quick_set(guess, object, offset, value)
    }

    /// Stores a defined value at a pointer, where its cell is found without a search and can be written; false where nothing was done.
    #[inline(always)]
    pub fn quick_store(&mut self, pointer: Word, value: Word) -> bool
        ensures done { IsTrue result → value_stored pointer value self.old ≡ Ok self.new }
        ensures nothing { IsFalse result → self.new ≡ self.old }
    {
        let Some((object, offset)) = pointer.place_parts() else {
            return false;
        };
        self.quick_store_in(Guess::Any, object, offset, value)
    }

    /// Stores a defined value in the first cell of a local of the running function; false where nothing was done.
    #[inline(always)]
    pub fn set_local(&mut self, object: u64, value: Word) -> bool
        ensures done { IsTrue result → value_stored (Scalar.Place object 0) value self.old ≡ Ok self.new }
        ensures nothing { IsFalse result → self.new ≡ self.old }
    {
        self.quick_store_in(Guess::Last, object, 0, value)
    }

    /// Stores a value at a pointer.
    pub fn store_word(&mut self, pointer: Word, value: Word) -> Result<(), Trap>
        ensures value { value_stored pointer value self.old ≡ state_or_trap result self.new }
        ensures trap { OnErr result (self.new ≡ self.old) }
    {
        if self.quick_store(pointer, value) {
            return Ok(());
        }
        self.store_slowly(pointer, value)
    }

    /// Stores a value at a pointer, whose object is looked for without a guess.
    pub fn store_slowly(&mut self, pointer: Word, value: Word) -> Result<(), Trap>
        ensures value { value_stored pointer value self.old ≡ state_or_trap result self.new }
        ensures trap { OnErr result (self.new ≡ self.old) }
    {
        self.store_at(pointer.scalar(), value)
    }

    /// Stores a value at a pointer.
    pub fn store(&mut self, pointer: Scalar, value: Scalar) -> Result<(), Trap>
        requires { IsHeldScalar value }
        ensures value { value_stored pointer value self.old ≡ state_or_trap result self.new }
        ensures trap { OnErr result (self.new ≡ self.old) }
    {
        self.store_at(pointer, Word::of(value))
    }

    #[tactic(auto, unfolding(cbi_base::specs::Objects::moved_pointer))]
    fn move_at(&self, pointer: Scalar, cells: i64) -> Result<Word, Trap>
        ensures { result ≡ moved_pointer pointer cells self.now }
    {
        match pointer {
            Scalar::Undefined => Err(Trap::Undefined),
            Scalar::Number { .. } => Err(Trap::Internal),
            Scalar::Null => Err(Trap::NullUse),
            Scalar::Place { object, offset } => {
                let Some(length) = self.length(object) else {
                    return Err(Trap::Dead);
                };
                move_in(object, offset, cells, length)
            }
        }
    }

    /// How many cells an object has that is found without a search.
    #[inline(always)]
    fn quick_length(&self, object: u64) -> Option<u32>
        ensures value { IfSome result (λ n. option_map (λ o. length o.cells) (get self.now.live object) ≡ Some n) }
        ensures limit { IfSome result (λ n. n ≤ cell_limit) }
    {
        let Some(block) = self.quick_block(object) else {
            return None;
        };
        Some(block.len() as u32)
    }

    /// An object that is found without a search. It has no more cells than may live.
    #[inline(always)]
    fn quick_block(&self, object: u64) -> Option<&Block>
        ensures there { IfSome result (λ b. get self.now.live object ≡ Some b.now) }
        ensures limit { IfSome result (λ b. length b.now.cells ≤ cell_limit) }
    {
        let Some(block) = self.table.quick(Guess::Any, object) else {
            return None;
        };
        Some(block)
    }

    /// The pointer moved by so many cells, and the value there of the kind that is wanted, where they are found without a search. None tells
    /// nothing.
    #[inline(always)]
    pub fn quick_load_behind(&self, pointer: Word, cells: i64, want: Want) -> Option<(Word, Word)>
        ensures moved { IfSome result (λ p. moved_pointer pointer cells self.now ≡ Ok p.0) }
        ensures loaded { IfSome result (λ p. loaded_value want p.0 self.now ≡ Ok p.1) }
    {
        let (object, offset) = pointer.place_parts()?;
        let block = self.quick_block(object)?;
        let to = offset_in(offset, cells, block.len() as u32)?;
        let word = block.cell(to)?;
        if word.is_wanted(want) {
            Some((Word::place(object, to), word))
        } else {
            None
        }
    }

    /// The pointer moved by so many cells, where its object is found without a search and it stays within it. None tells nothing.
    #[inline(always)]
    #[tactic(auto, unfolding(cbi_base::specs::Objects::moved_pointer))]
    pub fn quick_move(&self, pointer: Word, cells: i64) -> Option<Word>
        ensures { IfSome result (λ place. moved_pointer pointer cells self.now ≡ Ok place) }
    {
        let (object, offset) = pointer.place_parts()?;
        let length = self.quick_length(object)?;
        match move_in(object, offset, cells, length) {
            Ok(place) => Some(place),
            Err(_) => None,
        }
    }

    /// The pointer moved by so many cells, within its object or to its end.
    pub fn move_word(&self, pointer: Word, cells: i64) -> Result<Word, Trap>
        ensures { result ≡ moved_pointer pointer cells self.now }
    {
        self.move_at(pointer.scalar(), cells)
    }

    /// The pointer moved by so many cells, within its object or to its end.
    pub fn move_pointer(&self, pointer: Scalar, cells: i64) -> Result<Scalar, Trap>
        ensures value { result ≡ moved_pointer pointer cells self.now }
        ensures held { IfOk result IsHeldScalar }
    {
        let place = self.move_at(pointer, cells)?;
        Ok(place.scalar())
    }

    /// How many cells an object has, where it lives.
    fn length(&self, object: u64) -> Option<u32>
        ensures value { result ≡ option_map (λ o. length o.cells) (get self.now.live object) }
        ensures limit { IfSome result (λ n. n ≤ cell_limit) }
    {
        let Some(block) = self.table.get_by_search(object) else {
            return None;
        };
        Some(block.len() as u32)
    }

    /// The offsets of two places in one object.
    fn within_one(&self, left: Scalar, right: Scalar) -> Result<(u32, u32), Trap>
        ensures value { result ≡ within_one left right self.now (λ i j. Ok (i, j)) }
        ensures near { IsHeldScalar left → IsHeldScalar right → IfOk result (λ p. (p.0 ≤ cell_limit) × (p.1 ≤ cell_limit)) }
    {
        let (
            Scalar::Place { object, offset },
            Scalar::Place {
                object: other,
                offset: at,
            },
        ) = (left, right)
        else {
            return Err(Trap::NullUse);
        };
        if !self.table.lives(object) || !self.table.lives(other) {
            return Err(Trap::Dead);
        }
        if object != other {
            return Err(Trap::Unrelated);
        }
        Ok((offset, at))
    }

    /// Two pointers compared (C99 6.5.8 and 6.5.9).
    #[tactic(auto, using(crate::proofs::PairLemmas::compared_by), unfolding(cbi_base::specs::Objects::pointer_comparison))]
    pub fn compare(&self, order: Order, left: Scalar, right: Scalar) -> Result<bool, Trap>
        ensures { result ≡ pointer_comparison order left right self.now }
    {
        check_pointers(left, right)?;
        match order {
            Order::Eq => Ok(same_place(left, right)),
            Order::Ne => Ok(!same_place(left, right)),
            _ => match self.within_one(left, right) {
                Ok((first, second)) => Ok(in_order(order, first, second)),
                Err(trap) => Err(trap),
            },
        }
    }

    /// Two pointers compared (C99 6.5.8 and 6.5.9).
    pub fn compare_words(&self, order: Order, left: Word, right: Word) -> Result<bool, Trap>
        ensures { result ≡ pointer_comparison order left right self.now }
    {
        self.compare(order, left.scalar(), right.scalar())
    }

    /// How many elements of so many cells lie between two pointers (C99 6.5.6p9).
    #[tactic(auto, unfolding(cbi_base::specs::Objects::pointer_difference))]
    pub fn difference(&self, left: Scalar, right: Scalar, size: u32) -> Result<i64, Trap>
        requires { 1 ≤ size }
        ensures value { result ≡ pointer_difference left right size self.now }
        ensures in_range { IsHeldScalar left → IsHeldScalar right → IfOk result (LiesIn Int) }
    {
        check_pointers(left, right)?;
        let (first, second) = self.within_one(left, right)?;
        elements(size, i64::from(first) - i64::from(second))
    }

    /// How many elements of so many cells lie between two pointers (C99 6.5.6p9), which an `int` holds.
    pub fn difference_of_words(&self, left: Word, right: Word, size: u32) -> Result<i64, Trap>
        requires { 1 ≤ size }
        ensures value { result ≡ pointer_difference left right size self.now }
        ensures in_range { IfOk result (LiesIn Int) }
    {
        self.difference(left.scalar(), right.scalar(), size)
    }
}
