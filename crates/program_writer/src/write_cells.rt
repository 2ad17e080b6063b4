ghost use Rattle.std.specs.Prelude.{◌≡◌, ◌++◌, ◌∷◌, codes, map, OnOk};
ghost use Rattle.cbi_base.specs.Text.{line_with_newline, line_of_fields};
ghost use Rattle.flow.specs.Spelling.{cell_runs, cell_word, global_fields, run_word, whole_list};
ghost use Rattle.program_writer.specs.Written.{fields_behind, rows_text};

use crate::write_words::{kind_word, push_count, push_number, push_signed};
use cbi_base::{Memory, push_decimal};
use flow::{Cell, Global};
use program_lines::same_cell;

// Appends what a cell holds.
fn push_cell(out: &mut Vec<u8>, cell: Cell) -> Result<(), Memory>
    ensures { OnOk result (out.new.items ≡ out.old.items ++ cell_word cell) }
{
    match cell {
        Cell::Number { kind, value } => {
            out.extend_from_slice(kind_word(kind))?;
            push_signed(out, value)
        }
        Cell::Null => Ok(out.push(b'p')?),
        Cell::Text { index } => {
            out.push(b's')?;
            push_decimal(out, u128::from(index))
        }
    }
}

// Appends a space and a run.
fn push_run(out: &mut Vec<u8>, count: usize, cell: Cell) -> Result<(), Memory>
    ensures { OnOk result (out.new.items ≡ out.old.items ++ 32 ∷ run_word (record { count = count; cell = cell })) }
{
    push_number(out, count as u64)?;
    out.push(b':')?;
    push_cell(out, cell)
}

// Appends the cells by runs, with a space before each.
fn push_runs(out: &mut Vec<u8>, cells: &[Cell]) -> Result<(), Memory>
    ensures { OnOk result (out.new.items ≡ out.old.items ++ fields_behind (map run_word (cell_runs cells.now))) }
{
    let [first, others @ ..] = cells else {
        return Ok(());
    };
    let mut held = *first;
    let mut count = 1;
    let mut rest = others;
    while let [cell, after @ ..] = rest {
        if same_cell(held, *cell) {
            count += 1;
        } else {
            push_run(out, count, held)?;
            held = *cell;
            count = 1;
        }
        rest = after;
    }
    push_run(out, count, held)
}

// Appends the line of a global.
fn push_global(out: &mut Vec<u8>, global: &Global) -> Result<(), Memory>
    ensures { OnOk result (out.new.items ≡ out.old.items ++ line_with_newline (line_of_fields (global_fields global.now))) }
{
    out.extend_from_slice(b"global")?;
    push_runs(out, global.cells.as_slice())?;
    out.push(b'\n')?;
    Ok(())
}

fn push_each_global(out: &mut Vec<u8>, globals: &[Global]) -> Result<(), Memory>
    ensures { OnOk result (out.new.items ≡ out.old.items ++ rows_text (map global_fields globals.now)) }
{
    let mut rest = globals;
    while let [global, after @ ..] = rest {
        push_global(out, global)?;
        rest = after;
    }
    Ok(())
}

/// Appends how many globals there are, and their lines.
pub fn push_globals(out: &mut Vec<u8>, globals: &[Global]) -> Result<(), Memory>
    ensures { OnOk result (out.new.items ≡ out.old.items ++ rows_text (whole_list (codes "globals") global_fields globals.now)) }
{
    push_count(out, b"globals", globals.len())?;
    push_each_global(out, globals)
}
