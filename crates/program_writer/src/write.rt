ghost use Rattle.std.specs.Prelude.{◌≡◌, ◌++◌, ◌∷◌, codes, map, IfOk, OnOk};
ghost use Rattle.cbi_base.specs.Text.{line_with_newline, line_of_fields};
ghost use Rattle.flow.specs.Words.{IsProgram, SpellsProgram, bytes_word, program_text, text_fields, whole_list};
ghost use Rattle.flow.specs.declared.program.ProgramParts.{ProgramParts};
ghost use Rattle.program_writer.specs.Written.{back_rows, front_rows, rows_text};

use crate::write_cells::push_globals;
use crate::write_function::{push_bodies, push_heads};
use crate::write_site::push_sites;
use crate::write_words::push_count;
use cbi_base::Memory;
use flow::{Program, Text};
use std::alloc::Global;

// Appends the digits of a text's bytes.
fn push_bytes(alloc: Global, out: &mut Vec<u8>, bytes: &[u8]) -> Result<(), Memory>
    ensures { OnOk result (out.new.items ≡ out.old.items ++ bytes_word bytes.now) }
{
    match bytes {
        [] => Ok(out.push(b'-')?),
        [_, ..] => {
            let digits = hex::encode(alloc, bytes)?;
            Ok(out.extend_from_slice(digits.as_bytes())?)
        }
    }
}

// Appends the line of a text.
fn push_text(alloc: Global, out: &mut Vec<u8>, text: &Text) -> Result<(), Memory>
    ensures { OnOk result (out.new.items ≡ out.old.items ++ line_with_newline (line_of_fields (text_fields text.now))) }
{
    out.extend_from_slice(b"text ")?;
    push_bytes(alloc, out, text.bytes.as_slice())?;
    out.push(b'\n')?;
    Ok(())
}

fn push_each_text(alloc: Global, out: &mut Vec<u8>, texts: &[Text]) -> Result<(), Memory>
    ensures { OnOk result (out.new.items ≡ out.old.items ++ rows_text (map text_fields texts.now)) }
{
    let mut rest = texts;
    while let [text, after @ ..] = rest {
        push_text(alloc, out, text)?;
        rest = after;
    }
    Ok(())
}

// Appends how many texts there are, and their lines.
fn push_texts(alloc: Global, out: &mut Vec<u8>, texts: &[Text]) -> Result<(), Memory>
    ensures { OnOk result (out.new.items ≡ out.old.items ++ rows_text (whole_list (codes "texts") text_fields texts.now)) }
{
    push_count(out, b"texts", texts.len())?;
    push_each_text(alloc, out, texts)
}

// Appends the lines up to those of the functions' heads.
fn push_front(alloc: Global, out: &mut Vec<u8>, program: &Program) -> Result<(), Memory>
    ensures rows { OnOk result (out.new.items ≡ out.old.items ++ rows_text (front_rows program.now)) }
    ensures is_program { OnOk result (IsProgram program.now) }
{
    push_count(out, b"cbi-program", 1)?;
    push_texts(alloc, out, program.texts())?;
    push_globals(out, program.globals())?;
    push_heads(out, program.functions())?;
    Ok(())
}

// Appends the lines behind those.
fn push_back(out: &mut Vec<u8>, program: &Program) -> Result<(), Memory>
    ensures { OnOk result (out.new.items ≡ out.old.items ++ rows_text (back_rows program.now)) }
{
    push_count(out, b"main", program.main() as usize)?;
    push_sites(out, program.table().sites())?;
    push_bodies(out, program.functions())?;
    out.extend_from_slice(b"end\n")?;
    Ok(())
}

/// The text of a program, as which it is read again.
pub fn write_program(alloc: Global, program: &Program) -> Result<Vec<u8>, Memory>
    ensures text { IfOk result (λ bytes. bytes.items ≡ program_text program.now) }
    ensures spells { IfOk result (λ bytes. SpellsProgram bytes.items program.now) }
{
    let mut out = Vec::new(alloc);
    push_front(alloc, &mut out, program)?;
    push_back(&mut out, program)?;
    Ok(out)
}

/// A law: the text of a program spells it.
pub fn written_program()
    ensures { (p : ProgramParts) → IsProgram p → SpellsProgram (program_text p) p }
{}
