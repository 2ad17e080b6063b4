ghost use Rattle.std.specs.Prelude.{◌≡◌};
ghost use Rattle.program_lines.specs.Words.{want_of, result_of};

use cbi_base::Want;
use value_lines::read_kind;

/// What a load wants: a kind by its letter, or `p` for a pointer.
#[tactic(auto, unfolding(crate::specs::Words::want_of))]
pub fn want(field: &[u8]) -> Option<Want>
    ensures { result ≡ want_of field.now }
{
    if field == b"p".as_slice() {
        return Some(Want::Pointer);
    }
    let kind = read_kind(field)?;
    Some(Want::Number { kind })
}

/// Whether a function has a result, by its word.
#[tactic(auto, unfolding(crate::specs::Words::result_of))]
pub fn has_result(field: &[u8]) -> Option<bool>
    ensures { result ≡ result_of field.now }
{
    if field == b"value".as_slice() {
        return Some(true);
    }
    if field == b"void".as_slice() {
        return Some(false);
    }
    None
}
