ghost use Rattle.std.specs.Prelude.{◌≡◌, ◌++◌, ◌∷◌, codes, decimal, length, map, OnOk};
ghost use Rattle.std.specs.List.{flat_map};
ghost use Rattle.cbi_base.specs.Text.{line_with_newline, line_of_fields};
ghost use Rattle.flow.specs.Spelling.{body_rows, head_fields, head_of, locals_fields, result_word, whole_list};
ghost use Rattle.program_writer.specs.Written.{fields_behind, rows_text};

use crate::write_node::push_nodes;
use crate::write_words::{push_count, push_field, push_number};
use cbi_base::Memory;
use flow::Function;

fn result_word(value: bool) -> &'static [u8]
    ensures { result.now ≡ result_word value }
{
    if value { b"value" } else { b"void" }
}

// Appends how many parameters, locals and nodes a function has.
fn push_numbers(out: &mut Vec<u8>, function: &Function) -> Result<(), Memory>
    ensures { OnOk result (out.new.items ≡ out.old.items ++ 32 ∷ (decimal function.now.params
        ++ 32 ∷ (decimal (length function.now.locals) ++ 32 ∷ decimal (length function.now.nodes)))) }
{
    push_number(out, u64::from(function.params))?;
    push_number(out, function.locals.len() as u64)?;
    push_number(out, function.nodes.len() as u64)
}

// Appends what the line of a function says before its nodes.
fn push_head(out: &mut Vec<u8>, function: &Function) -> Result<(), Memory>
    ensures { OnOk result (out.new.items ≡ out.old.items ++ line_with_newline (line_of_fields (head_fields (head_of function.now)))) }
{
    out.extend_from_slice(b"function ")?;
    out.extend_from_slice(function.name.bytes())?;
    push_field(out, result_word(function.value))?;
    push_numbers(out, function)?;
    out.push(b'\n')?;
    Ok(())
}

fn push_each_head(out: &mut Vec<u8>, functions: &[Function]) -> Result<(), Memory>
    ensures { OnOk result (out.new.items ≡ out.old.items ++ rows_text (map head_fields (map head_of functions.now))) }
{
    let mut rest = functions;
    while let [function, after @ ..] = rest {
        push_head(out, function)?;
        rest = after;
    }
    Ok(())
}

/// Appends how many functions there are, and the line of each.
pub fn push_heads(out: &mut Vec<u8>, functions: &[Function]) -> Result<(), Memory>
    ensures { OnOk result (out.new.items ≡ out.old.items ++ rows_text (whole_list (codes "functions") head_fields (map head_of functions.now))) }
{
    push_count(out, b"functions", functions.len())?;
    push_each_head(out, functions)
}

fn push_sizes(out: &mut Vec<u8>, sizes: &[u32]) -> Result<(), Memory>
    ensures { OnOk result (out.new.items ≡ out.old.items ++ fields_behind (map decimal sizes.now)) }
{
    let mut rest = sizes;
    while let [size, after @ ..] = rest {
        push_number(out, u64::from(*size))?;
        rest = after;
    }
    Ok(())
}

// Appends the line of the sizes of a function's locals.
fn push_locals(out: &mut Vec<u8>, sizes: &[u32]) -> Result<(), Memory>
    ensures { OnOk result (out.new.items ≡ out.old.items ++ line_with_newline (line_of_fields (locals_fields sizes.now))) }
{
    out.extend_from_slice(b"locals")?;
    push_sizes(out, sizes)?;
    out.push(b'\n')?;
    Ok(())
}

// Appends the lines of a function's locals and nodes.
fn push_body(out: &mut Vec<u8>, function: &Function) -> Result<(), Memory>
    ensures { OnOk result (out.new.items ≡ out.old.items ++ rows_text (body_rows function.now)) }
{
    push_locals(out, function.locals.as_slice())?;
    push_nodes(out, function.nodes.as_slice())
}

/// Appends the lines of the functions' locals and nodes.
pub fn push_bodies(out: &mut Vec<u8>, functions: &[Function]) -> Result<(), Memory>
    ensures { OnOk result (out.new.items ≡ out.old.items ++ rows_text (flat_map body_rows functions.now)) }
{
    let mut rest = functions;
    while let [function, after @ ..] = rest {
        push_body(out, function)?;
        rest = after;
    }
    Ok(())
}
