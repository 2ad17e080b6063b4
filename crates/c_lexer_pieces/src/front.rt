ghost use Rattle.std.specs.Prelude.{◌≡◌, option_map, IfOk, IfSome, is_some};
ghost use Rattle.c_lexer_pieces.specs.Cutting.{piece_at, as_piece, new_directive_at};
ghost use Rattle.c_lexer_pieces.specs.Piece.{Text};
ghost use Rattle.c_lexer_pieces.specs.Reading.{text_at};
ghost use Rattle.c_lexer_pieces.specs.Found.{piece_of, known_by};
ghost use Rattle.c_lexer_pieces.specs.PieceFacts.{KnowsClosing, PieceFits};

use crate::bytes::begins;
use crate::escapes::text_at;
use crate::pieces::{Found, directive_at, plain_at};
use c_syntax::Constant;
use cbi_base::Memory;
use std::alloc::Global;
use std::collections::BTreeMap;

/// The constants that names stand for. The names lie in the text.
pub type Defined<'a> = BTreeMap<&'a [u8], Constant>;

/// The constant that a name stands for.
pub fn constant_of(defined: &Defined<'_>, name: &[u8]) -> Option<Constant>
    ensures { result ≡ known_by defined.now name.now }
{
    defined.get(name).copied()
}

/// A string at the front, and what follows it.
fn string_at<'a>(alloc: Global, bytes: &'a [u8]) -> Result<Option<(Found<'a>, &'a [u8])>, Memory>
    ensures value { IfOk result (λ r. option_map (λ x. (piece_of x.0, x.1.now)) r ≡ as_piece Text (text_at bytes.now)) }
    ensures fits { IfOk result (λ r. IfSome r (λ x. PieceFits (piece_of x.0))) }
{
    match text_at(alloc, bytes)? {
        None => Ok(None),
        Some((values, rest)) => Ok(Some((Found::Text { values }, rest))),
    }
}

/// A directive that defines no name a second time, and what follows it.
fn new_directive_at<'a>(defined: &Defined<'_>, bytes: &'a [u8]) -> Option<(Found<'a>, &'a [u8])>
    ensures value { option_map (λ x. (piece_of x.0, x.1.now)) result ≡ new_directive_at (known_by defined.now) bytes.now }
    ensures fits { IfSome result (λ x. PieceFits (piece_of x.0)) }
{
    let (found, rest) = directive_at(bytes)?;
    if let Found::Definition { name, .. } = &found {
        if constant_of(defined, name).is_some() {
            return None;
        }
    }
    Some((found, rest))
}

/// The piece at the front, and what follows it. `closes` is false only where no `*/` comes, and `fresh` says whether only spaces and tabs
/// stand before it on its line.
#[tactic(auto, unfolding(crate::specs::Cutting::piece_at))]
pub fn piece_at<'a>(
    alloc: Global,
    closes: bool,
    fresh: bool,
    defined: &Defined<'_>,
    bytes: &'a [u8],
) -> Result<Option<(Found<'a>, &'a [u8])>, Memory>
    requires { KnowsClosing closes bytes.now }
    ensures value { IfOk result (λ r. option_map (λ x. (piece_of x.0, x.1.now)) r ≡ piece_at fresh (known_by defined.now) bytes.now) }
    ensures fits { IfOk result (λ r. IfSome r (λ x. PieceFits (piece_of x.0))) }
{
    if begins(b'"', bytes) {
        return string_at(alloc, &bytes[1..]);
    }
    if !begins(b'#', bytes) {
        return Ok(plain_at(closes, bytes));
    }
    if !fresh {
        return Ok(None);
    }
    Ok(new_directive_at(defined, bytes))
}
