ghost use Rattle.std.specs.Prelude.{◌≡◌, ◌≤◌, ◌<◌, option_map, IfOk, IfSome};
ghost use Rattle.c_lexer_pieces.specs.Reading.{byte_of, octal_at, hexadecimal_escape_at, escape_at, element_at, character_at, text_at};
ghost use Rattle.c_lexer_pieces.specs.Values.{simple_escape, signed_byte};
ghost use Rattle.c_lexer_pieces.specs.PieceFacts.{Fits};
ghost use Rattle.c_syntax.specs.Tokens.{AtLeastChar, ConstantFits};

use crate::bytes::{Class, begins, split_run};
use crate::comments::strip;
use crate::constants::small_value;
use c_syntax::Constant;
use cbi_base::{Kind, Memory};
use std::alloc::Global;

/// What a letter behind a backslash stands for, other than of an octal or hexadecimal escape.
#[tactic(auto, unfolding(crate::specs::Values::simple_escape))]
fn simple_escape(c: u8) -> Option<u8>
    ensures { result ≡ simple_escape c }
{
    match c {
        b'n' => Some(b'\n'),
        b't' => Some(b'\t'),
        b'r' => Some(b'\r'),
        b'a' => Some(7),
        b'b' => Some(8),
        b'f' => Some(12),
        b'v' => Some(11),
        b'\\' => Some(b'\\'),
        b'\'' => Some(b'\''),
        b'"' => Some(b'"'),
        b'?' => Some(b'?'),
        _ => None,
    }
}

/// The byte that digits stand for: there is one, and they aren't above 255.
#[tactic(auto, unfolding(crate::specs::Reading::byte_of))]
fn byte_of(base: u64, digits: &[u8]) -> Option<u8>
    requires at_most_16 { base ≤ 16 }
    requires positive { 0 < base }
    ensures { result ≡ byte_of base digits.now }
{
    if digits.is_empty() {
        return None;
    }
    let value = small_value(base, digits)?;
    if value < 256 { Some(value as u8) } else { None }
}

/// Up to three octal digits.
#[tactic(auto, unfolding(crate::specs::Reading::octal_at))]
fn octal_at(bytes: &[u8]) -> Option<(u8, &[u8])>
    ensures { option_map (λ x. (x.0, x.1.now)) result ≡ octal_at bytes.now }
{
    let (digits, _) = split_run(Class::Octal, &bytes[..bytes.len().min(3)]);
    let value = byte_of(8, digits)?;
    Some((value, &bytes[digits.len()..]))
}

/// Hexadecimal digits behind an `x`.
#[tactic(auto, unfolding(crate::specs::Reading::hexadecimal_escape_at))]
fn hexadecimal_escape_at(bytes: &[u8]) -> Option<(u8, &[u8])>
    ensures { option_map (λ x. (x.0, x.1.now)) result ≡ hexadecimal_escape_at bytes.now }
{
    let (digits, rest) = split_run(Class::Hexadecimal, bytes);
    let value = byte_of(16, digits)?;
    Some((value, rest))
}

/// An escape, behind its backslash.
#[tactic(auto, unfolding(crate::specs::Reading::escape_at))]
fn escape_at(bytes: &[u8]) -> Option<(u8, &[u8])>
    ensures { option_map (λ x. (x.0, x.1.now)) result ≡ escape_at bytes.now }
{
    let (c, rest) = bytes.split_first()?;
    if *c == b'x' {
        return hexadecimal_escape_at(rest);
    }
    match simple_escape(*c) {
        Some(value) => Some((value, rest)),
        None => octal_at(bytes),
    }
}

/// One byte between quotes, plain or as an escape.
#[tactic(auto, unfolding(crate::specs::Reading::element_at))]
pub(crate) fn element_at(quote: u8, bytes: &[u8]) -> Option<(u8, &[u8])>
    ensures { option_map (λ x. (x.0, x.1.now)) result ≡ element_at quote bytes.now }
{
    let (b, rest) = bytes.split_first()?;
    if *b == b'\n' || *b == quote {
        return None;
    }
    if *b == b'\\' {
        return escape_at(rest);
    }
    Some((*b, rest))
}

/// A byte as a signed number of 8 bits.
fn signed_byte(b: u8) -> i64
    ensures value { result ≡ signed_byte b }
    ensures fits { ConstantFits Kind.Int result × AtLeastChar result }
{
    if b < 128 {
        i64::from(b)
    } else {
        i64::from(b) - 256
    }
}

/// A character constant at the front, and the bytes after it.
#[tactic(auto, unfolding(crate::specs::Reading::character_at))]
pub(crate) fn character_at(bytes: &[u8]) -> Option<(Constant, &[u8])>
    ensures value { option_map (λ x. (x.0, x.1.now)) result ≡ character_at bytes.now }
    ensures fits { IfSome result (λ x. Fits x.0) }
{
    let inner = strip(b'\'', bytes)?;
    let (value, end) = element_at(b'\'', inner)?;
    let rest = strip(b'\'', end)?;
    let value = signed_byte(value);
    Some((
        Constant {
            kind: Kind::Int,
            value,
        },
        rest,
    ))
}

/// The bytes of a string behind its opening quote, and what follows its closing quote.
pub(crate) fn text_at<'a>(
    alloc: Global,
    bytes: &'a [u8],
) -> Result<Option<(Vec<u8>, &'a [u8])>, Memory>
    ensures { IfOk result (λ r. option_map (λ x. (x.0.items, x.1.now)) r ≡ text_at bytes.now) }
{
    let mut values = Vec::new(alloc);
    let mut rest = bytes;
    while !begins(b'"', rest) {
        let Some((value, after)) = element_at(b'"', rest) else {
            return Ok(None);
        };
        values.push(value)?;
        rest = after;
    }
    let (_, after) = rest.split_at(1);
    Ok(Some((values, after)))
}
