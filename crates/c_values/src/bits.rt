ghost use Rattle.std.specs.Prelude.{◌≡◌, pos, bit_and, bit_or, bit_xor};
ghost use Rattle.cbi_base.specs.Words.{LiesIn, wrapped_value, bits_of, bitwise_value, complement};

use crate::range::wrap;
use cbi_base::Kind;

/// The 32 bits of a number in two's complement.
fn bits(value: i64) -> u32
    ensures { result ≡ bits_of value }
{
    value.rem_euclid(1 << 32) as u32
}

/// The number of a kind with these bits.
fn from_bits(kind: Kind, bits: u32) -> i64
    ensures value { result ≡ wrapped_value kind (pos bits) }
    ensures in_range { LiesIn kind result }
{
    wrap(kind, bits as i64)
}

/// The bits that both numbers have.
pub fn and(kind: Kind, left: i64, right: i64) -> i64
    ensures value { result ≡ bitwise_value bit_and kind left right }
    ensures in_range { LiesIn kind result }
{
    from_bits(kind, bits(left) & bits(right))
}

/// The bits that one of the numbers has.
pub fn or(kind: Kind, left: i64, right: i64) -> i64
    ensures value { result ≡ bitwise_value bit_or kind left right }
    ensures in_range { LiesIn kind result }
{
    from_bits(kind, bits(left) | bits(right))
}

/// The bits in which the numbers differ.
pub fn xor(kind: Kind, left: i64, right: i64) -> i64
    ensures value { result ≡ bitwise_value bit_xor kind left right }
    ensures in_range { LiesIn kind result }
{
    from_bits(kind, bits(left) ^ bits(right))
}

/// The bits that the number lacks.
pub fn complement(kind: Kind, value: i64) -> i64
    ensures value { result ≡ complement kind value }
    ensures in_range { LiesIn kind result }
{
    from_bits(kind, !bits(value))
}
