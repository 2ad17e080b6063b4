ghost use Rattle.std.specs.Prelude.{◌≡◌, ◌↔◌, ◌<◌, ◌≤◌, ◌^◌, length, map, IsTrue, IfOk};
ghost use Rattle.std.specs.List.{All, sum_by};
ghost use Rattle.cbi_base.specs.Format.{conversions_of};
ghost use Rattle.flow.specs.Limits.{byte_limit, static_limit};
ghost use Rattle.flow.specs.Program.{AreTexts, AreGlobals, GlobalFits, cell_fits};

use crate::program::{Cell, Global, Text};
use crate::scope::lies_in;
use cbi_base::{Memory, Seq, count_conversions};
use std::alloc::Global as Heap;

const TEXT_LIMIT: usize = 400_000;

const BYTE_LIMIT: usize = 2_097_152;

const GLOBAL_LIMIT: usize = 200_000;

const STATIC_LIMIT: usize = 1_048_576;

// What a `Vec<u8>` holds are bytes; this says so of its list.
fn are_bytes(bytes: &[u8])
    ensures { All (λ b. b < 256) bytes.now }
{
    let _count = bytes.len();
}

fn hold_bytes(texts: &[Text])
    ensures { All (λ t. All (λ b. b < 256) t.bytes) texts.now }
{
    for text in texts {
        are_bytes(text.bytes.as_slice());
    }
}

fn are_short_texts(texts: &[Text]) -> bool
    ensures { IsTrue result ↔ All (λ t. length t.bytes ≤ byte_limit) texts.now }
{
    texts.iter().all(|text| text.bytes.len() <= BYTE_LIMIT)
}

fn are_short_globals(globals: &[Global]) -> bool
    ensures { IsTrue result ↔ All (λ g. length g.cells ≤ static_limit) globals.now }
{
    globals
        .iter()
        .all(|global| global.cells.len() <= STATIC_LIMIT)
}

fn all_bytes(texts: &[Text]) -> usize
    requires { sum_by (λ t. length t.bytes) texts.now < 2 ^ 64 }
    ensures { result ≡ sum_by (λ t. length t.bytes) texts.now }
{
    texts.iter().map(|text| text.bytes.len()).sum()
}

fn all_cells(globals: &[Global]) -> usize
    requires { sum_by (λ g. length g.cells) globals.now < 2 ^ 64 }
    ensures { result ≡ sum_by (λ g. length g.cells) globals.now }
{
    globals.iter().map(|global| global.cells.len()).sum()
}

/// Whether the texts keep the conditions on a program's texts.
pub(crate) fn are_texts(texts: &[Text]) -> bool
    ensures { IsTrue result ↔ AreTexts texts.now }
{
    if texts.len() > TEXT_LIMIT || !are_short_texts(texts) {
        return false;
    }
    hold_bytes(texts);
    all_bytes(texts) <= BYTE_LIMIT
}

/// The number of each text's conversions as a format, and none for one that is no format.
pub fn conversions(alloc: Heap, texts: &[Text]) -> Result<Seq<Option<u32>>, Memory>
    requires { AreTexts texts.now }
    ensures { IfOk result (λ counts. counts ≡ map (λ t. conversions_of t.bytes) texts.now) }
{
    let mut counts = Vec::with_capacity(alloc, texts.len())?;
    for text in texts {
        counts.push(count_conversions(text.bytes.as_slice()))?;
    }
    Ok(Seq::from_vec(counts))
}

/// Whether a global's cell may hold this beside so many texts.
pub fn cell_fits(texts: u32, cell: Cell) -> bool
    ensures { result ≡ cell_fits texts cell }
{
    match cell {
        Cell::Number { kind, value } => lies_in(kind, value),
        Cell::Null => true,
        Cell::Text { index } => index < texts,
    }
}

fn global_fits(texts: u32, global: &Global) -> bool
    ensures { IsTrue result ↔ GlobalFits texts global.now }
{
    let cells = global.cells.as_slice();
    !cells.is_empty() && cells.iter().all(|cell| cell_fits(texts, *cell))
}

fn all_fit(texts: u32, globals: &[Global]) -> bool
    ensures { IsTrue result ↔ All (GlobalFits texts) globals.now }
{
    globals.iter().all(|global| global_fits(texts, global))
}

/// Whether the globals keep the conditions on a program's globals, beside so many texts.
pub(crate) fn are_globals(texts: u32, globals: &[Global]) -> bool
    ensures { IsTrue result ↔ AreGlobals texts globals.now }
{
    if globals.len() > GLOBAL_LIMIT || !all_fit(texts, globals) || !are_short_globals(globals) {
        return false;
    }
    all_cells(globals) <= STATIC_LIMIT
}
