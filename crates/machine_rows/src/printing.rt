ghost use Rattle.std.specs.Prelude.{◌≡◌, ◌≤◌, ◌<◌, ◌∷◌, [], List, ℕ, drop, length, IsTrue, IfOk, IfErr, MatchOption, MatchResult, Some};
ghost use Rattle.std.specs.Fmt.{signed_decimal};
ghost use Rattle.cbi_base.specs.Words.{is_zero, is_conversion, LiesIn, low_byte, output_limit, string_on, string_at, printing_stopped, then_print};
ghost use Rattle.cbi_base.specs.Words.{bytes_printed, pieces_of};
ghost use Rattle.cbi_base.specs.Words.{takes_value, take_values, converted_by, printed_format};
ghost use Rattle.cbi_base.specs.Printing as print;
ghost use Rattle.machine_rows.specs.Printed.{IsPrinted, stop_in};
ghost use Rattle.machine_rows.specs.Strings.{IsCellPut, Continues, piece_of};

use crate::output::Output;
use crate::rows::byte_of;
use crate::stop::Stop;
use c_store::{Objects, Word};
use cbi_base::{Kind, Scalar, Trap};
use itoa::Buffer;

/// A piece of a format: a byte, or a conversion by its letter.
#[derive(Clone, Copy)]
pub enum Piece {
    Byte(u8),
    Conversion(u8),
}

/// What stands in a list from this place on.
#[tactic(auto, using(crate::proofs::StringLemmas::none_left))]
fn after(cells: &[Word], offset: usize) -> &[Word]
    ensures { result.now ≡ drop offset cells.now }
{
    if offset >= cells.len() {
        return &cells[cells.len()..];
    }
    &cells[offset..]
}

/// The cells from a pointer on, to the end of its object.
#[tactic(auto, using(crate::proofs::StringLemmas::live, crate::proofs::StringLemmas::dead), unfolding(cbi_base::specs::Printing::string_at))]
fn cells_at(objects: &Objects, pointer: Word) -> Result<&[Word], Trap>
    ensures { MatchResult result (λ cells. string_at pointer objects.now ≡ string_on cells.now) (λ t. string_at pointer objects.now ≡ printing_stopped t) }
{
    match pointer.scalar() {
        Scalar::Undefined => Err(Trap::Undefined),
        Scalar::Number { .. } => Err(Trap::Internal),
        Scalar::Null => Err(Trap::NullUse),
        Scalar::Place { object, offset } => match objects.cells(object) {
            None => Err(Trap::Dead),
            Some(cells) => Ok(after(cells, offset as usize)),
        },
    }
}

fn is_zero(value: i64) -> bool
    ensures { result ≡ is_zero value }
{
    value == 0
}

/// The byte of a `char`.
fn char_byte(value: i64) -> u8
    requires { LiesIn Kind.Char value }
    ensures { result ≡ low_byte value }
{
    byte_of(value as i32)
}

/// Writes the byte of a cell of a string. False where that is its closing zero.
#[tactic(auto, using(crate::proofs::StringLemmas::zero_on, crate::proofs::PrintedLemmas::nothing_on))]
fn put_cell(output: &mut Output, cell: Word) -> Result<bool, Stop>
    ensures { IsCellPut cell output.old result output.new }
{
    // (its bound holds from the start)
    let _ = output.len();
    match cell.scalar() {
        Scalar::Undefined => Err(Stop::from(Trap::Undefined)),
        Scalar::Number {
            kind: Kind::Char,
            value,
        } => {
            if is_zero(value) {
                return Ok(false);
            }
            output.put(char_byte(value))?;
            Ok(true)
        }
        _ => Err(Stop::from(Trap::WrongKind)),
    }
}

/// Writes the string that these cells hold: the bytes before the first zero.
fn put_cells(output: &mut Output, cells: &[Word]) -> Result<(), Stop>
    ensures { IsPrinted (string_on cells.now) output.old (stop_in result) output.new }
{
    for cell in cells {
        if !put_cell(output, *cell)? {
            return Ok(());
        }
    }
    let _ = output.len();
    Err(Stop::from(Trap::Bounds))
}

/// Writes the string at a pointer.
fn put_string(output: &mut Output, objects: &Objects, pointer: Word) -> Result<(), Stop>
    ensures { IsPrinted (string_at pointer objects.now) output.old (stop_in result) output.new }
{
    let _ = output.len();
    let cells = cells_at(objects, pointer)?;
    put_cells(output, cells)
}

/// Writes the string at a pointer, and a newline.
#[tactic(auto, using(crate::proofs::PrintedLemmas::goes_on, crate::proofs::PrintedLemmas::ends_there))]
pub fn put_line(output: &mut Output, objects: &Objects, pointer: Word) -> Result<(), Stop>
    ensures line { IsPrinted (then_print (string_at pointer objects.now) (bytes_printed (10 ∷ []))) output.old (stop_in result) output.new }
    ensures room { length output.old ≤ output_limit }
{
    let _ = output.len();
    put_string(output, objects, pointer)?;
    output.put(b'\n')
}

/// Writes the decimal of a number.
fn put_decimal(output: &mut Output, value: i64) -> Result<(), Stop>
    ensures { IsPrinted (bytes_printed (signed_decimal value)) output.old (stop_in result) output.new }
{
    let mut buffer = Buffer::new();
    output.write(buffer.format(value).as_bytes())
}

/// Whether a conversion takes this value.
fn takes(letter: u8, value: Word) -> bool
    ensures { result ≡ takes_value letter value }
{
    match value.scalar() {
        Scalar::Number {
            kind: Kind::Int,
            ..
        } => letter == b'd' || letter == b'c',
        Scalar::Number {
            kind: Kind::Unsigned,
            ..
        } => letter == b'u',
        Scalar::Place { .. } | Scalar::Null => letter == b's',
        _ => false,
    }
}

/// Writes a value by a conversion that takes it.
fn put_value(output: &mut Output, objects: &Objects, letter: u8, value: Word) -> Result<(), Stop>
    requires { IsTrue (takes_value letter value) }
    ensures { IsPrinted (converted_by letter value objects.now) output.old (stop_in result) output.new }
{
    match value.scalar() {
        Scalar::Number {
            kind: Kind::Int,
            value,
        } => {
            if letter == b'c' {
                output.put(byte_of(value as i32))
            } else {
                put_decimal(output, value)
            }
        }
        Scalar::Number { value, .. } => put_decimal(output, value),
        _ => put_string(output, objects, value),
    }
}

fn is_conversion(letter: u8) -> bool
    ensures { result ≡ is_conversion letter }
{
    matches!(letter, b'd' | b'u' | b'c' | b's')
}

/// The first piece of a format, and what comes after it.
fn first_piece(format: &[u8]) -> Option<(Piece, &[u8])>
    ensures pieces { MatchOption result (pieces_of format.now ≡ []) (λ p. pieces_of format.now ≡ piece_of p.0 ∷ pieces_of p.1.now) }
    ensures less { MatchOption result (length format.now ≡ 0) (λ p. length p.1.now < length format.now) }
{
    match format {
        [] => None,
        [last] => Some((Piece::Byte(*last), &format[1..])),
        [b'%', letter, rest @ ..] => {
            if is_conversion(*letter) {
                Some((Piece::Conversion(*letter), rest))
            } else {
                Some((Piece::Byte(*letter), rest))
            }
        }
        [byte, ..] => Some((Piece::Byte(*byte), &format[1..])),
    }
}

/// Whether each conversion of a format takes the value that stands at its place.
pub fn take_values(format: &[u8], values: &[Word]) -> bool
    ensures { result ≡ take_values (pieces_of format.now) values.now }
{
    let mut rest = format;
    let mut left = values;
    while let Some((piece, next)) = first_piece(rest) {
        if let Piece::Conversion(letter) = piece {
            let [value, others @ ..] = left else {
                return false;
            };
            if !takes(letter, *value) {
                return false;
            }
            left = others;
        }
        rest = next;
    }
    left.is_empty()
}

/// Writes a piece of a format, and gives the values that are left.
fn put_piece<'a>(
    output: &mut Output,
    objects: &Objects,
    piece: Piece,
    values: &'a [Word],
) -> Result<&'a [Word], Stop>
    ensures ok { IfOk result (λ left. (pieces : List print.FormatPiece) → IsTrue (take_values (piece_of piece ∷ pieces) values.now)
        → IsTrue (take_values pieces left.now) × Continues (printed_format pieces left.now objects.now)
        (printed_format (piece_of piece ∷ pieces) values.now objects.now) output.old output.new) }
    ensures err { IfErr result (λ e. (pieces : List print.FormatPiece) → IsTrue (take_values (piece_of piece ∷ pieces) values.now)
        → IsPrinted (printed_format (piece_of piece ∷ pieces) values.now objects.now) output.old (Some e) output.new) }
{
    match piece {
        Piece::Byte(byte) => {
            output.put(byte)?;
            Ok(values)
        }
        Piece::Conversion(letter) => {
            let [value, left @ ..] = values else {
                return Err(Stop::from(Trap::Internal));
            };
            if !takes(letter, *value) {
                return Err(Stop::from(Trap::Internal));
            }
            put_value(output, objects, letter, *value)?;
            Ok(left)
        }
    }
}

/// Writes values by a format, each conversion of which takes its value.
pub fn put_format(
    output: &mut Output,
    objects: &Objects,
    format: &[u8],
    values: &[Word],
) -> Result<(), Stop>
    requires { IsTrue (take_values (pieces_of format.now) values.now) }
    ensures { IsPrinted (printed_format (pieces_of format.now) values.now objects.now) output.old (stop_in result) output.new }
{
    let mut rest = format;
    let mut left = values;
    while let Some((piece, next)) = first_piece(rest) {
        left = put_piece(output, objects, piece, left)?;
        rest = next;
    }
    let _ = output.len();
    Ok(())
}
