ghost use Rattle.std.specs.Prelude.{◌≡◌};
ghost use Rattle.value_lines.specs.ValueLines.{kind_of, int_of};

use cbi_base::{Kind, read_signed};

/// The kind with this letter.
#[tactic(auto, unfolding(crate::specs::ValueLines::kind_of))]
pub fn read_kind(field: &[u8]) -> Option<Kind>
    ensures { result ≡ kind_of field.now }
{
    if field == b"c".as_slice() {
        return Some(Kind::Char);
    }
    if field == b"i".as_slice() {
        return Some(Kind::Int);
    }
    if field == b"u".as_slice() {
        return Some(Kind::Unsigned);
    }
    None
}

/// The number of an `int` whose decimal the field is.
pub(crate) fn int(field: &[u8]) -> Option<i32>
    ensures { result ≡ int_of field.now }
{
    let value = read_signed(field)?;
    if !(-2147483648..=2147483647).contains(&value) {
        return None;
    }
    Some(value as i32)
}
