ghost use Rattle.std.specs.Prelude.{◌≡◌, option_map, IfSome};
ghost use Rattle.c_lexer_pieces.specs.Cutting.{sign_with, sign_at, plain_at, line_piece, directive_at};
ghost use Rattle.c_lexer_pieces.specs.Found.{piece_of};
ghost use Rattle.c_lexer_pieces.specs.PieceFacts.{KnowsClosing, PieceFits};

use crate::bytes::{Class, is_separator, split_run};
use crate::comments::{comment_at, strip};
use crate::constants::number_at;
use crate::directives::{define_in, is_include, name_at};
use crate::escapes::character_at;
use crate::spellings::sign_of;
use c_syntax::{Constant, Sign};
use cbi_base::is_letter;

/// A piece of a text: what stands for no token, a token before defined names are replaced, or a definition.
#[derive(Drop)]
pub enum Found<'a> {
    Nothing,
    Name { name: &'a [u8] },
    Constant { constant: Constant },
    Text { values: Vec<u8> },
    Punctuator { sign: Sign },
    Definition { name: &'a [u8], constant: Constant },
}

/// A punctuator of this many bytes, and what follows it.
fn sign_with(n: usize, bytes: &[u8]) -> Option<(Sign, &[u8])>
    ensures { option_map (λ x. (x.0, x.1.now)) result ≡ sign_with n bytes.now }
{
    if bytes.len() < n {
        return None;
    }
    let (front, rest) = bytes.split_at(n);
    let sign = sign_of(front)?;
    Some((sign, rest))
}

/// The longest punctuator, and what follows it.
#[tactic(auto, unfolding(crate::specs::Cutting::sign_at))]
fn sign_at(bytes: &[u8]) -> Option<(Sign, &[u8])>
    ensures { option_map (λ x. (x.0, x.1.now)) result ≡ sign_at bytes.now }
{
    if let Some(found) = sign_with(3, bytes) {
        return Some(found);
    }
    if let Some(found) = sign_with(2, bytes) {
        return Some(found);
    }
    sign_with(1, bytes)
}

/// A piece other than a string or a directive, and what follows it. `closes` is false only where no `*/` comes.
#[tactic(auto, unfolding(crate::specs::Cutting::plain_at))]
pub(crate) fn plain_at(closes: bool, bytes: &[u8]) -> Option<(Found<'_>, &[u8])>
    requires { KnowsClosing closes bytes.now }
    ensures value { option_map (λ x. (piece_of x.0, x.1.now)) result ≡ plain_at bytes.now }
    ensures fits { IfSome result (λ x. PieceFits (piece_of x.0)) }
{
    let (first, others) = bytes.split_first()?;
    if is_separator(*first) {
        return Some((Found::Nothing, others));
    }
    if is_letter(*first) {
        let (name, rest) = name_at(bytes)?;
        return Some((Found::Name { name }, rest));
    }
    if first.is_ascii_digit() {
        let (constant, rest) = number_at(bytes)?;
        return Some((Found::Constant { constant }, rest));
    }
    if *first == b'\'' {
        let (constant, rest) = character_at(bytes)?;
        return Some((Found::Constant { constant }, rest));
    }
    if let Some(rest) = comment_at(closes, bytes) {
        return Some((Found::Nothing, rest));
    }
    let (sign, rest) = sign_at(bytes)?;
    Some((Found::Punctuator { sign }, rest))
}

fn line_at<'a>(text: &'a [u8], after: &'a [u8]) -> Option<(Found<'a>, &'a [u8])>
    ensures value { option_map (λ x. (piece_of x.0, x.1.now)) result ≡ line_piece text.now after.now }
    ensures fits { IfSome result (λ x. PieceFits (piece_of x.0)) }
{
    if is_include(text) {
        return Some((Found::Nothing, after));
    }
    let (name, constant) = define_in(text)?;
    Some((Found::Definition { name, constant }, after))
}

/// A directive, which takes its whole line, and what follows it.
#[tactic(auto, unfolding(crate::specs::Cutting::directive_at))]
pub(crate) fn directive_at(bytes: &[u8]) -> Option<(Found<'_>, &[u8])>
    ensures value { option_map (λ x. (piece_of x.0, x.1.now)) result ≡ directive_at bytes.now }
    ensures fits { IfSome result (λ x. PieceFits (piece_of x.0)) }
{
    let (line, after) = split_run(Class::Line, bytes);
    let rest = strip(b'#', line)?;
    let (_, text) = split_run(Class::Blank, rest);
    line_at(text, after)
}
