ghost use Rattle.std.specs.Prelude.{◌≡◌, IfOk};
ghost use Rattle.cbi_base.specs.ProgramId.{is_lower_digit};
ghost use Rattle.std.specs.List.{list_all};
ghost use Rattle.program_lines.specs.Rows.{count_of, name_of, bytes_of, text_of_row, sizes_of, locals_of_row};

use cbi_base::{Fields, Memory, Name, Seq, one_number, read_number};
use hex::FromHexError;
use std::alloc::Global;

/// The number after a word.
pub fn read_count(fields: &mut Fields<'_>, word: &[u8]) -> Option<u32>
    ensures { result ≡ count_of word.now fields.old }
{
    let first = fields.next()?;
    if first != word {
        return None;
    }
    one_number(fields)
}

/// A field that is a name.
pub fn name(alloc: Global, field: &[u8]) -> Result<Option<Name>, Memory>
    ensures { IfOk result (λ name. name ≡ name_of field.now) }
{
    Name::new(alloc, field)
}

fn is_lower_digit(b: u8) -> bool
    ensures { result ≡ is_lower_digit b }
{
    b.is_ascii_digit() || (b'a'..=b'f').contains(&b)
}

fn are_lower_digits(field: &[u8]) -> bool
    ensures { result ≡ list_all is_lower_digit field.now }
{
    field.iter().all(|b| is_lower_digit(*b))
}

/// The bytes of a text.
#[tactic(auto, unfolding(crate::specs::Rows::bytes_of))]
pub fn bytes(alloc: Global, field: &[u8]) -> Result<Option<Seq<u8>>, Memory>
    ensures { IfOk result (λ bytes. bytes ≡ bytes_of field.now) }
{
    if field == b"-".as_slice() {
        return Ok(Some(Seq::new(alloc)));
    }
    if !are_lower_digits(field) {
        return Ok(None);
    }
    match hex::decode(alloc, field) {
        Ok(bytes) if bytes.is_empty() => Ok(None),
        Ok(bytes) => Ok(Some(Seq::from_vec(bytes))),
        Err(FromHexError::OutOfMemory) => Err(Memory),
        Err(_) => Ok(None),
    }
}

/// The bytes in the line of a text.
pub fn read_text(alloc: Global, fields: &mut Fields<'_>) -> Result<Option<Seq<u8>>, Memory>
    ensures { IfOk result (λ bytes. bytes ≡ text_of_row fields.old) }
{
    let Some(word) = fields.next() else {
        return Ok(None);
    };
    let Some(digits) = fields.next() else {
        return Ok(None);
    };
    if !fields.is_empty() || word != b"text".as_slice() {
        return Ok(None);
    }
    bytes(alloc, digits)
}

// So many numbers.
fn sizes(alloc: Global, fields: &mut Fields<'_>, count: u32) -> Result<Option<Seq<u32>>, Memory>
    ensures { IfOk result (λ sizes. sizes ≡ sizes_of count fields.old) }
{
    let mut sizes = Seq::new(alloc);
    for _place in 0..count {
        let Some(field) = fields.next() else {
            return Ok(None);
        };
        let Some(size) = read_number(field) else {
            return Ok(None);
        };
        sizes.push(size)?;
    }
    if !fields.is_empty() {
        return Ok(None);
    }
    Ok(Some(sizes))
}

/// The sizes in the line of a function's locals, of which there are so many.
pub fn read_locals(
    alloc: Global,
    fields: &mut Fields<'_>,
    count: u32,
) -> Result<Option<Seq<u32>>, Memory>
    ensures { IfOk result (λ sizes. sizes ≡ locals_of_row count fields.old) }
{
    let Some(word) = fields.next() else {
        return Ok(None);
    };
    if word != b"locals".as_slice() {
        return Ok(None);
    }
    sizes(alloc, fields, count)
}
