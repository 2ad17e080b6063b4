ghost use Rattle.std.specs.Prelude.{◌≡◌, ◌∷◌, ◌++◌, [], IfOk, OnOk, None, length, replicate};
ghost use Rattle.c_types_expressions.specs.Walked.{item_replaced};

use cbi_base::Memory;
use std::alloc::Global;
use std::marker::Model;

/// A list whose items can be replaced.
#[derive(Drop)]
pub struct Table<T> {
    items: Vec<T>,
}

impl<T> Model for Table<T> {
    ghost use Rattle.std.specs.Prelude.{List};

    ghost Value = { List T };

    ghost view = { λ t. t.items.items };
}

impl<T> Table<T> {
    pub fn new(alloc: Global) -> Table<T>
        ensures { result ≡ [] }
    {
        Table {
            items: Vec::new(alloc),
        }
    }

    pub fn as_slice(&self) -> &[T]
        ensures { result.now ≡ self.now }
    {
        self.items.as_slice()
    }

    pub fn len(&self) -> usize
        ensures { result ≡ length self.now }
    {
        self.items.len()
    }
}

impl<T: Drop> Table<T> {
    /// Adds an item at the end.
    pub fn push(&mut self, item: T) -> Result<(), Memory>
        ensures { OnOk result (self.new ≡ self.old ++ item ∷ []) }
    {
        self.items.push(item)?;
        Ok(())
    }

    /// Replaces the item at the place. Where there is no such place, nothing happens.
    pub fn set(&mut self, place: u32, item: T)
        ensures { self.new ≡ item_replaced self.old place item }
    {
        if (place as usize) < self.items.len() {
            self.items[place as usize] = item;
        }
    }
}

/// So many places at which nothing is noted.
#[tactic(auto, using(crate::proofs::Replicated::one_more))]
pub fn blank<T: Drop>(alloc: Global, count: usize) -> Result<Table<Option<T>>, Memory>
    ensures { IfOk result (λ t. t ≡ replicate count None) }
{
    let mut items = Vec::new(alloc);
    for _ in 0..count {
        items.push(None)?;
    }
    Ok(Table { items })
}
