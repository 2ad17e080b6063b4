ghost use Rattle.std.specs.Prelude.{◌≡◌, option_copied, option_map, IfSome};
ghost use Rattle.c_lexer_pieces.specs.PieceFacts.{Fits};
ghost use Rattle.c_lexer_pieces.specs.Reading.{name_at, strip_text, blanks_at, constant_at, trailing_at, is_directive_end, header_at, is_include};
ghost use Rattle.c_lexer_pieces.specs.Reading.{defined_name_at};
ghost use Rattle.c_lexer_pieces.specs.Reading.{define_in, header_line};

use crate::bytes::{Class, begins, begins_with, split_run};
use crate::comments::comment_at;
use crate::constants::number_at;
use crate::escapes::character_at;
use crate::spellings::word_of;
use c_syntax::Constant;
use cbi_base::begins_name;

/// The longest name, in bytes.
const LONGEST_NAME: usize = 63;

/// A whole run of letters, digits and `_` that is a name, and what follows.
#[tactic(auto, unfolding(crate::specs::Reading::name_at))]
pub(crate) fn name_at(bytes: &[u8]) -> Option<(&[u8], &[u8])>
    ensures { option_map (λ x. (x.0.now, x.1.now)) result ≡ name_at bytes.now }
{
    if !begins_name(bytes) {
        return None;
    }
    let (name, rest) = split_run(Class::Name, bytes);
    if name.len() > LONGEST_NAME {
        return None;
    }
    Some((name, rest))
}

fn strip_text<'a>(front: &[u8], bytes: &'a [u8]) -> Option<&'a [u8]>
    ensures { option_copied result ≡ strip_text front.now bytes.now }
{
    if bytes.starts_with(front) {
        Some(&bytes[front.len()..])
    } else {
        None
    }
}

/// What follows at least one space or tab.
fn blanks_at(bytes: &[u8]) -> Option<&[u8]>
    ensures { option_copied result ≡ blanks_at bytes.now }
{
    if !begins_with(Class::Blank, bytes) {
        return None;
    }
    let (_, rest) = split_run(Class::Blank, bytes);
    Some(rest)
}

/// An integer or character constant, and what follows.
fn constant_at(bytes: &[u8]) -> Option<(Constant, &[u8])>
    ensures value { option_map (λ x. (x.0, x.1.now)) result ≡ constant_at bytes.now }
    ensures fits { IfSome result (λ x. Fits x.0) }
{
    if begins(b'\'', bytes) {
        return character_at(bytes);
    }
    number_at(bytes)
}

/// What follows a space, a tab, a carriage return or a comment.
#[tactic(auto, unfolding(crate::specs::Reading::trailing_at))]
fn trailing_at(bytes: &[u8]) -> Option<&[u8]>
    ensures { option_copied result ≡ trailing_at bytes.now }
{
    if begins_with(Class::Blank, bytes) || begins(b'\r', bytes) {
        return Some(&bytes[1..]);
    }
    comment_at(true, bytes)
}

/// Whether all these bytes may end a directive's line.
fn trails(bytes: &[u8]) -> bool
    ensures { result ≡ is_directive_end bytes.now }
{
    let mut rest = bytes;
    while !rest.is_empty() {
        match trailing_at(rest) {
            Some(after) => rest = after,
            None => return false,
        }
    }
    true
}

/// What follows the name of a header that can be included.
fn header_at(bytes: &[u8]) -> Option<&[u8]>
    ensures { option_copied result ≡ header_at bytes.now }
{
    if let Some(rest) = strip_text(b"<stdio.h>", bytes) {
        return Some(rest);
    }
    if let Some(rest) = strip_text(b"<stdlib.h>", bytes) {
        return Some(rest);
    }
    strip_text(b"<assert.h>", bytes)
}

fn header_line(bytes: &[u8]) -> Option<&[u8]>
    ensures { option_copied result ≡ header_line bytes.now }
{
    let rest = strip_text(b"include", bytes)?;
    let (_, header) = split_run(Class::Blank, rest);
    header_at(header)
}

/// Whether these bytes are an `#include` line behind the `#` and blanks.
#[tactic(auto, unfolding(crate::specs::Reading::is_include))]
pub(crate) fn is_include(bytes: &[u8]) -> bool
    ensures { result ≡ is_include bytes.now }
{
    match header_line(bytes) {
        Some(rest) => trails(rest),
        None => false,
    }
}

/// The name in a `#define` line, behind the `#` and blanks, and what follows.
#[tactic(auto, unfolding(crate::specs::Reading::defined_name_at))]
fn defined_name_at(bytes: &[u8]) -> Option<(&[u8], &[u8])>
    ensures { option_map (λ x. (x.0.now, x.1.now)) result ≡ defined_name_at bytes.now }
{
    let rest = strip_text(b"define", bytes)?;
    let (name, rest) = name_at(blanks_at(rest)?)?;
    if word_of(name).is_some() {
        return None;
    }
    Some((name, rest))
}

/// What a `#define` line defines, behind the `#` and blanks.
#[tactic(auto, unfolding(crate::specs::Reading::define_in))]
pub(crate) fn define_in(bytes: &[u8]) -> Option<(&[u8], Constant)>
    ensures value { option_map (λ x. (x.0.now, x.1)) result ≡ define_in bytes.now }
    ensures fits { IfSome result (λ x. Fits x.1) }
{
    let (name, rest) = defined_name_at(bytes)?;
    let (constant, rest) = constant_at(blanks_at(rest)?)?;
    if trails(rest) {
        Some((name, constant))
    } else {
        None
    }
}
