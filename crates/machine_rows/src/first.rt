ghost use Rattle.std.specs.Prelude.{◌≡◌, ◌≤◌, ◌<◌, ◌++◌, ◌∷◌, [], map, length, IfOk};
ghost use Rattle.std.specs.List.{All};
ghost use Rattle.flow.specs.Words.{global_limit, cell_value, object_of_global, text_object, program_objects};
ghost use Rattle.cbi_base.specs.Words.{each_made, char_of, made_with};
ghost use Rattle.machine_rows.specs.Starting.{IsAllMade, NumberFits};

use crate::texts::char_of;
use c_store::{Made, Objects, Word};
use cbi_base::{Class, Memory};
use flow::{Cell, Global, Program, Text};
use std::alloc::Global as Heap;

/// What a cell of a global holds at the start, where there are so many globals.
fn cell_value(globals: u64, cell: Cell) -> Word
    requires fits { NumberFits cell }
    requires few { globals ≤ global_limit }
    ensures { result ≡ cell_value globals cell }
{
    match cell {
        Cell::Number { kind, value } => Word::number(kind, value),
        Cell::Null => Word::null(),
        Cell::Text { index } => Word::place(globals + u64::from(index), 0),
    }
}

/// What a global's cells hold at the start.
#[tactic(auto, using(crate::proofs::MapLemmas::map_step, crate::proofs::MapLemmas::map_done))]
fn global_cells(alloc: Heap, globals: u64, cells: &[Cell]) -> Result<Vec<Word>, Memory>
    requires fits { All NumberFits cells.now }
    requires few { globals ≤ global_limit }
    ensures { IfOk result (λ words. words.items ≡ map (cell_value globals) cells.now) }
{
    let mut words = Vec::with_capacity(alloc, cells.len())?;
    for cell in cells {
        words.push(cell_value(globals, *cell))?;
    }
    Ok(words)
}

/// A text's bytes as `char`, and a closing zero.
#[tactic(auto, using(crate::proofs::MapLemmas::map_step, crate::proofs::MapLemmas::map_done))]
fn text_cells(alloc: Heap, bytes: &[u8]) -> Result<Vec<Word>, Memory>
    ensures { IfOk result (λ words. words.items ≡ map char_of bytes.now ++ char_of 0 ∷ []) }
{
    let mut words = Vec::with_capacity(alloc, bytes.len())?;
    for byte in bytes {
        words.push(char_of(*byte))?;
    }
    words.push(char_of(0))?;
    Ok(words)
}

/// An object with these cells; false where there is no room for it.
fn make(objects: &mut Objects, class: Class, cells: &[Word]) -> Result<bool, Memory>
    requires { 0 < length cells.now }
    ensures { IfOk result (λ made. IsAllMade (made_with class cells.now objects.old) made objects.new) }
{
    match objects.make_of_words(class, cells)? {
        Made::Object { .. } => Ok(true),
        Made::Full => Ok(false),
    }
}

/// The objects of the globals, in order; false where there is no room for one of them.
fn make_globals(alloc: Heap, objects: &mut Objects, globals: &[Global]) -> Result<bool, Memory>
    requires some { All (λ g. 0 < length g.cells) globals.now }
    requires fits { All (λ g. All NumberFits g.cells) globals.now }
    requires few { length globals.now ≤ global_limit }
    ensures { IfOk result (λ made. IsAllMade (each_made (map (object_of_global (length globals.now)) globals.now) objects.old) made objects.new) }
{
    let count = globals.len() as u64;
    for global in globals {
        let cells = global_cells(alloc, count, global.cells.as_slice())?;
        if !make(objects, Class::Static, cells.as_slice())? {
            return Ok(false);
        }
    }
    Ok(true)
}

/// The objects of the texts, in order; false where there is no room for one of them.
fn make_texts(alloc: Heap, objects: &mut Objects, texts: &[Text]) -> Result<bool, Memory>
    ensures { IfOk result (λ made. IsAllMade (each_made (map text_object texts.now) objects.old) made objects.new) }
{
    for text in texts {
        let cells = text_cells(alloc, text.bytes.as_slice())?;
        if !make(objects, Class::Text, cells.as_slice())? {
            return Ok(false);
        }
    }
    Ok(true)
}

/// The objects that are there from the start: the globals, and then the texts; false where there is no room for one of them.
pub fn make_first(alloc: Heap, objects: &mut Objects, program: &Program) -> Result<bool, Memory>
    ensures { IfOk result (λ made. IsAllMade (each_made (program_objects program.now) objects.old) made objects.new) }
{
    if !make_globals(alloc, objects, program.globals())? {
        return Ok(false);
    }
    let made = make_texts(alloc, objects, program.texts())?;
    Ok(made)
}
