ghost use Rattle.std.specs.Prelude.{◌≡◌, ◌-◌, [], ◌∷◌, length, replicate, slice_get, IfOk, OnErr, IsTrue, IsFalse, Ok};
ghost use Rattle.cbi_base.specs.declared.scalar.Scalar.TheVariants.{Undefined};
ghost use Rattle.c_store.specs.Written.{with_each, written_at, state_or_trap};

use crate::word::Word;
use cbi_base::{Class, Memory, Trap};
use std::alloc::Global;
use std::marker::Model;
use std::slice::from_ref;

/// The cells of an object. Most variables have a single one, which takes no memory of its own.
#[derive(Drop)]
enum Cells {
    One { cell: Word },
    Many { cells: Vec<Word> },
}

/// An object: what it is, and its cells.
#[derive(Drop)]
pub struct Block {
    class: Class,
    cells: Cells,
}

impl Model for Block {
    ghost use Rattle.cbi_base.specs.Objects.{Object};
    ghost use Rattle.c_store.specs.Codes.{object_code};

    ghost Value = { Object };

    ghost coded = { object_code };

    ghost use Rattle.c_store.specs.Cells.{cells_of};

    ghost view = { λ b. record { class = b.class; cells = cells_of b.cells } };
}

impl Block {
    #[inline(always)]
    pub fn of_words(class: Class, cells: Vec<Word>) -> Block
        ensures { result ≡ record { class = class; cells = cells.items } }
    {
        Block {
            class,
            cells: Cells::Many { cells },
        }
    }

    /// An object whose cells are undefined.
    pub fn undefined(alloc: Global, class: Class, size: u32) -> Result<Block, Memory>
        ensures { IfOk result (λ b. b ≡ record { class = class; cells = replicate size Undefined }) }
    {
        let cells = if size == 1 {
            Cells::One {
                cell: Word::undefined(),
            }
        } else {
            Cells::Many {
                cells: vec![in alloc; Word::undefined(); size as usize]?,
            }
        };
        Ok(Block { class, cells })
    }

    /// An object with this first cell; the others are undefined.
    #[inline(always)]
    pub fn beginning(alloc: Global, class: Class, first: Word, size: u32) -> Result<Block, Memory>
        ensures { IfOk result (λ b. b ≡ record { class = class; cells = first ∷ replicate (size - 1) Undefined }) }
    {
        if size <= 1 {
            return Ok(Block {
                class,
                cells: Cells::One { cell: first },
            });
        }
        let mut cells = vec![in alloc; Word::undefined(); size as usize]?;
        cells[0] = first;
        Ok(Block::of_words(class, cells))
    }

    #[inline(always)]
    pub fn class(&self) -> Class
        ensures { result ≡ self.now.class }
    {
        self.class
    }

    #[inline(always)]
    pub fn len(&self) -> usize
        ensures { result ≡ length self.now.cells }
    {
        match &self.cells {
            Cells::One { .. } => 1,
            Cells::Many { cells } => cells.len(),
        }
    }

    #[inline(always)]
    pub fn cells(&self) -> &[Word]
        ensures { result.now ≡ self.now.cells }
    {
        match &self.cells {
            Cells::One { cell } => from_ref(cell),
            Cells::Many { cells } => cells.as_slice(),
        }
    }

    /// The cell at an offset.
    #[inline(always)]
    pub fn cell(&self, offset: u32) -> Option<Word>
        ensures { result ≡ slice_get self.now.cells offset }
    {
        match &self.cells {
            Cells::One { cell } => if offset == 0 { Some(*cell) } else { None },
            Cells::Many { cells } => cells.as_slice().get(offset as usize).copied(),
        }
    }

    /// Stores a value at an offset.
    #[inline(always)]
    pub fn set(&mut self, offset: u32, value: Word) -> Result<(), Trap>
        ensures value { written_at offset value self.old ≡ state_or_trap result self.new }
        ensures trap { OnErr result (self.new ≡ self.old) }
    {
        if offset as usize >= self.len() {
            return Err(Trap::Bounds);
        }
        if let Class::Text = self.class {
            return Err(Trap::ReadOnly);
        }
        match &mut self.cells {
            Cells::One { cell } => *cell = value,
            Cells::Many { cells } => cells[offset as usize] = value,
        }
        Ok(())
    }

    /// Stores a value at an offset, where there is such a cell and it can be written; false where nothing was done.
    #[inline(always)]
    pub fn quick_set(&mut self, offset: u32, value: Word) -> bool
        ensures done { IsTrue result → written_at offset value self.old ≡ Ok self.new }
        ensures nothing { IsFalse result → self.new ≡ self.old }
    {
        if let Class::Text = self.class {
            return false;
        }
        match &mut self.cells {
            Cells::One { cell } => {
                if offset != 0 {
                    return false;
                }
                *cell = value;
            }
            Cells::Many { cells } => {
                if offset as usize >= cells.len() {
                    return false;
                }
                cells[offset as usize] = value;
            }
        }
        true
    }

    /// Each cell has this value from now on.
    pub fn fill(&mut self, value: Word)
        ensures { self.new ≡ with_each value self.old }
    {
        let Cells::Many { cells } = &mut self.cells else {
            self.cells = Cells::One { cell: value };
            return;
        };
        cells.as_mut_slice().fill(value);
    }
}
