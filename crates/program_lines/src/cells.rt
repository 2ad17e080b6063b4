ghost use Rattle.std.specs.Prelude.{◌≡◌, ◌==◌, ◌∷◌, ◌++◌, replicate, IfOk, OnOk, MatchOption, None};
ghost use Rattle.cbi_base.specs.Text.{Lacks};
ghost use Rattle.std.specs.Option.{option_map};
ghost use Rattle.flow.specs.Spelling.{same_kind, same_cell};
ghost use Rattle.program_lines.specs.CellRuns.{cut_at_colon, kind_of_letter, cell_of, run_of, is_different_cell, may_come, cells_of, global_of_row};

use cbi_base::{Fields, Kind, Memory, Seq, read_number, read_signed};
use flow::Cell;
use std::alloc::Global;
use std::marker::Model;

/// A run of equal cells. Contracts see it as it is spelled.
#[derive(Drop)]
struct CellRun {
    count: u32,
    cell: Cell,
}

impl Model for CellRun {
    ghost use Rattle.flow.specs.Spelling.{Run};

    ghost Value = { Run };

    ghost view = { λ r. record { count = r.count; cell = r.cell } };
}

fn same_kind(kind: Kind, other: Kind) -> bool
    ensures { result ≡ same_kind kind other }
{
    match (kind, other) {
        (Kind::Char, Kind::Char) => true,
        (Kind::Int, Kind::Int) => true,
        (Kind::Unsigned, Kind::Unsigned) => true,
        _ => false,
    }
}

/// Whether two cells hold the same.
pub fn same_cell(cell: Cell, other: Cell) -> bool
    ensures { result ≡ same_cell cell other }
{
    match (cell, other) {
        (
            Cell::Number { kind, value },
            Cell::Number {
                kind: other,
                value: number,
            },
        ) => same_kind(kind, other) && value == number,
        (Cell::Null, Cell::Null) => true,
        (Cell::Text { index }, Cell::Text { index: place }) => index == place,
        _ => false,
    }
}

// The bytes before the first colon and those after it.
fn cut(field: &[u8]) -> Option<(&[u8], &[u8])>
    ensures { MatchOption result (Lacks (λ b. b == 58) field.now) (λ parts. (field.now ≡ parts.0.now ++ 58 ∷ parts.1.now) × Lacks (λ b. b == 58) parts.0.now) }
{
    let at = field.iter().position(|b| *b == b':')?;
    Some((&field[..at], &field[at + 1..]))
}

fn cut_at_colon(field: &[u8]) -> Option<(&[u8], &[u8])>
    ensures { option_map (λ parts. (parts.0.now, parts.1.now)) result ≡ cut_at_colon field.now }
{
    match cut(field) {
        None => None,
        Some((before, after)) => Some((before, after)),
    }
}

fn lettered(letter: u8) -> Option<Kind>
    ensures { result ≡ kind_of_letter letter }
{
    if letter == b'c' {
        return Some(Kind::Char);
    }
    if letter == b'i' {
        return Some(Kind::Int);
    }
    if letter == b'u' {
        return Some(Kind::Unsigned);
    }
    None
}

#[tactic(auto, unfolding(crate::specs::CellRuns::cell_of))]
fn cell(field: &[u8]) -> Option<Cell>
    ensures { result ≡ cell_of field.now }
{
    let (letter, rest) = field.split_first()?;
    if *letter == b's' {
        let index = read_number(rest)?;
        return Some(Cell::Text { index });
    }
    if field == b"p".as_slice() {
        return Some(Cell::Null);
    }
    let kind = lettered(*letter)?;
    let value = read_signed(rest)?;
    Some(Cell::Number { kind, value })
}

#[tactic(auto, unfolding(crate::specs::CellRuns::run_of))]
fn run(field: &[u8]) -> Option<CellRun>
    ensures { result ≡ run_of field.now }
{
    let (before, after) = cut_at_colon(field)?;
    let count = read_number(before)?;
    let cell = cell(after)?;
    Some(CellRun { count, cell })
}

fn differs(last: Option<Cell>, cell: Cell) -> bool
    ensures { result ≡ is_different_cell last cell }
{
    match last {
        None => true,
        Some(last) => !same_cell(last, cell),
    }
}

// Whether the run may come after this cell, where there is room for so many cells.
fn may_come(room: u32, last: Option<Cell>, run: &CellRun) -> bool
    ensures { result ≡ may_come room last run.now }
{
    1 <= run.count && run.count <= room && differs(last, run.cell)
}

fn push_run(cells: &mut Seq<Cell>, run: &CellRun) -> Result<(), Memory>
    ensures { OnOk result (cells.new ≡ cells.old ++ replicate run.now.count run.now.cell) }
{
    for _place in 0..run.count {
        cells.push(run.cell)?;
    }
    Ok(())
}

fn cells(alloc: Global, fields: &mut Fields<'_>, room: u32) -> Result<Option<Seq<Cell>>, Memory>
    ensures { IfOk result (λ cells. cells ≡ cells_of room None fields.old) }
{
    let mut cells = Seq::new(alloc);
    let mut left = room;
    let mut last = None;
    while let Some(field) = fields.next() {
        let Some(run) = run(field) else {
            return Ok(None);
        };
        if !may_come(left, last, &run) {
            return Ok(None);
        }
        push_run(&mut cells, &run)?;
        left -= run.count;
        last = Some(run.cell);
    }
    Ok(Some(cells))
}

/// The cells in the line of a global, where there is room for so many.
pub fn read_global(
    alloc: Global,
    fields: &mut Fields<'_>,
    room: u32,
) -> Result<Option<Seq<Cell>>, Memory>
    ensures { IfOk result (λ cells. cells ≡ global_of_row room fields.old) }
{
    let Some(word) = fields.next() else {
        return Ok(None);
    };
    if word != b"global".as_slice() {
        return Ok(None);
    }
    cells(alloc, fields, room)
}
