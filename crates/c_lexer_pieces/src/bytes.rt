ghost use Rattle.std.specs.Prelude.{◌≡◌, ◌==◌, ◌≤◌, length};
ghost use Rattle.std.specs.List.{prefix_len};
ghost use Rattle.c_lexer_pieces.specs.Bytes.{is_separator, is_of_class, begins_with_byte, begins_with, run_of_class, bytes_past_run};

use cbi_base::is_name_byte;

/// A class of bytes whose runs are read as one.
#[derive(Clone, Copy, PartialEq, Eq)]
pub enum Class {
    /// Letters, `_` and digits.
    Name,
    /// Those and `.`.
    Number,
    Octal,
    Decimal,
    Hexadecimal,
    /// Spaces and tabs.
    Blank,
    /// All but a newline.
    Line,
}

impl Class {
    #[tactic(auto, unfolding(crate::specs::Bytes::is_of_class))]
    pub fn has(self, b: u8) -> bool
        ensures { result ≡ is_of_class self b }
    {
        match self {
            Class::Name => is_name_byte(b),
            Class::Number => is_name_byte(b) || b == b'.',
            Class::Octal => matches!(b, b'0'..=b'7'),
            Class::Decimal => b.is_ascii_digit(),
            Class::Hexadecimal => b.is_ascii_hexdigit(),
            Class::Blank => b == b' ' || b == b'\t',
            Class::Line => b != b'\n',
        }
    }
}

pub fn is_separator(b: u8) -> bool
    ensures { result ≡ is_separator b }
{
    matches!(b, 9..=13 | b' ')
}

/// Whether this byte comes next.
pub(crate) fn begins(b: u8, bytes: &[u8]) -> bool
    ensures { result ≡ begins_with_byte b bytes.now }
{
    match bytes {
        [] => false,
        [first, ..] => *first == b,
    }
}

/// Whether a byte of the class comes next.
pub(crate) fn begins_with(class: Class, bytes: &[u8]) -> bool
    ensures { result ≡ begins_with class bytes.now }
{
    match bytes {
        [] => false,
        [first, ..] => class.has(*first),
    }
}

/// How many bytes of the class stand in front.
fn run_len(class: Class, bytes: &[u8]) -> usize
    ensures { result ≡ prefix_len (is_of_class class) bytes.now }
{
    for (i, b) in bytes.iter().enumerate() {
        if !class.has(*b) {
            return i;
        }
    }
    bytes.len()
}

/// The longest front of bytes of the class, and what follows it.
#[tactic(auto, using(crate::proofs::RunLaws::run_is_front, crate::proofs::RunLaws::past_is_rest, crate::proofs::RunLaws::prefix_len_within))]
pub(crate) fn split_run(class: Class, bytes: &[u8]) -> (&[u8], &[u8])
    ensures run { result.0.now ≡ run_of_class class bytes.now }
    ensures past { result.1.now ≡ bytes_past_run class bytes.now }
    ensures within { length result.0.now ≤ length bytes.now }
{
    bytes.split_at(run_len(class, bytes))
}
