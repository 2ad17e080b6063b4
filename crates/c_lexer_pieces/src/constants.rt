ghost use Rattle.std.specs.Prelude.{◌≡◌, ◌≤◌, ◌<◌, option_copied, option_map, IfSome, pos};
ghost use Rattle.c_lexer_pieces.specs.Reading.{small_value, hexadecimal_at, radix_at, suffix_at, number_at};
ghost use Rattle.c_lexer_pieces.specs.Values.{class_of, base_of, kind_of};
ghost use Rattle.c_lexer_pieces.specs.Bytes.{digit_value};
ghost use Rattle.c_lexer_pieces.specs.PieceFacts.{Fits};
ghost use Rattle.c_syntax.specs.Tokens.{AtLeastChar, ConstantFits};

use crate::bytes::{Class, begins, begins_with, split_run};
use crate::comments::strip;
use c_syntax::Constant;
use cbi_base::Kind;

const TWO_TO_31: u64 = 1 << 31;

const TWO_TO_32: u64 = 1 << 32;

/// How the digits of an integer constant count.
#[derive(Clone, Copy, PartialEq, Eq)]
pub(crate) enum Radix {
    Octal,
    Decimal,
    Hexadecimal,
}

impl Radix {
    fn class(self) -> Class
        ensures { result ≡ class_of self }
    {
        match self {
            Radix::Octal => Class::Octal,
            Radix::Decimal => Class::Decimal,
            Radix::Hexadecimal => Class::Hexadecimal,
        }
    }

    fn base(self) -> u64
        ensures { result ≡ base_of self }
    {
        match self {
            Radix::Octal => 8,
            Radix::Decimal => 10,
            Radix::Hexadecimal => 16,
        }
    }
}

/// The number that digits stand for, where it is below 2^32.
pub(crate) fn small_value(base: u64, digits: &[u8]) -> Option<u64>
    requires at_most_16 { base ≤ 16 }
    requires positive { 0 < base }
    ensures { result ≡ small_value base digits.now }
{
    let mut value = 0;
    for d in digits {
        value = value * base + u64::from(digit_value(*d));
        if value >= TWO_TO_32 {
            return None;
        }
    }
    Some(value)
}

/// What a digit counts, up to hexadecimal.
fn digit_value(b: u8) -> u8
    ensures { result ≡ digit_value b }
{
    if b <= b'9' {
        b.saturating_sub(b'0')
    } else if b <= b'F' {
        b.saturating_sub(b'A' - 10)
    } else {
        b.saturating_sub(b'a' - 10)
    }
}

/// The bytes behind `0x` or `0X`.
fn hexadecimal_at(bytes: &[u8]) -> Option<&[u8]>
    ensures { option_copied result ≡ hexadecimal_at bytes.now }
{
    let rest = strip(b'0', bytes)?;
    if begins(b'x', rest) {
        return Some(&rest[1..]);
    }
    strip(b'X', rest)
}

/// The base of a constant, and its digits with what follows them.
#[tactic(auto, unfolding(crate::specs::Reading::radix_at))]
fn radix_at(bytes: &[u8]) -> (Radix, &[u8])
    ensures { (result.0, result.1.now) ≡ radix_at bytes.now }
{
    if let Some(digits) = hexadecimal_at(bytes) {
        return (Radix::Hexadecimal, digits);
    }
    if begins(b'0', bytes) {
        return (Radix::Octal, bytes);
    }
    (Radix::Decimal, bytes)
}

/// Whether a suffix stands here, and what follows.
#[tactic(auto, unfolding(crate::specs::Reading::suffix_at))]
fn suffix_at(bytes: &[u8]) -> (bool, &[u8])
    ensures { (result.0, result.1.now) ≡ suffix_at bytes.now }
{
    match bytes {
        [b'u' | b'U', rest @ ..] => (true, rest),
        _ => (false, bytes),
    }
}

/// The kind of a constant; none where its value is too great.
#[tactic(auto, unfolding(crate::specs::Values::kind_of))]
fn kind_of(radix: Radix, suffixed: bool, value: u64) -> Option<Kind>
    ensures value { result ≡ kind_of radix suffixed value }
    ensures fits { IfSome result (λ k. ConstantFits k (pos value) × AtLeastChar (pos value)) }
{
    if !suffixed && value < TWO_TO_31 {
        return Some(Kind::Int);
    }
    if value < TWO_TO_32 && (suffixed || radix != Radix::Decimal) {
        return Some(Kind::Unsigned);
    }
    None
}

/// An integer constant at the front, and the bytes after it.
#[tactic(auto, unfolding(crate::specs::Reading::number_at))]
pub(crate) fn number_at(bytes: &[u8]) -> Option<(Constant, &[u8])>
    ensures value { option_map (λ x. (x.0, x.1.now)) result ≡ number_at bytes.now }
    ensures fits { IfSome result (λ x. Fits x.0) }
{
    let (radix, rest) = radix_at(bytes);
    let (digits, rest) = split_run(radix.class(), rest);
    let (suffixed, rest) = suffix_at(rest);
    if digits.is_empty() || begins_with(Class::Number, rest) {
        return None;
    }
    let value = small_value(radix.base(), digits)?;
    let kind = kind_of(radix, suffixed, value)?;
    Some((
        Constant {
            kind,
            value: value as i64,
        },
        rest,
    ))
}
