ghost use Rattle.std.specs.Prelude.{◌≡◌, ◌≤◌, ◌<◌, ◌+◌, ◌^◌, ◌∷◌, [], length, ℕ, List, IfOk, IfErr, IfSome, OnOk};
ghost use Rattle.c_syntax.specs.Limits.{most_bytes};
ghost use Rattle.c_lexer_pieces.specs.Bytes.{newlines};
ghost use Rattle.c_lexer_pieces.specs.Cutting.{piece_at, fresh_from};
ghost use Rattle.c_lexer_pieces.specs.Found.{piece_of, known_by};
ghost use Rattle.c_lexer.specs.Refusals.{can_begin, refusal_for};
ghost use Rattle.c_lexer.specs.Lexing.{kind_at, name_kind, constant_kind, known_after, with_line};
ghost use Rattle.c_lexer.specs.State.{AllFit, kept_with, MayFollow, TokenFits};
ghost use Rattle.c_lexer_pieces.specs.PieceFacts.{Fits, IsNamed, PieceFits};
ghost use Rattle.cbi_base.specs.Name.{IsName};

use crate::error::LexError;
use c_lexer_pieces::{
    Class, Defined, Found, constant_of, is_separator, may_close, piece_at, sign_of, word_of,
};
use c_syntax::{Constant, Token, TokenKind, Tokens};
use cbi_base::{Memory, Name, Seq, is_letter};
use std::alloc::Global;
use std::collections::BTreeMap;

/// The most tokens that a text may have.
pub(crate) const MOST_TOKENS: usize = 100_000;

/// The place up to which a text was read, and what was found before it.
#[derive(Drop)]
pub(crate) struct Lexer<'a> {
    pub(crate) left: &'a [u8],
    /// False only where no `*/` comes, so that none is looked for at each `/*`.
    closes: bool,
    /// Whether only spaces and tabs stand before the place on its line.
    fresh: bool,
    line: u32,
    defined: Defined<'a>,
    pub(crate) tokens: Tokens,
    /// How many tokens there were. Those past the limit aren't kept.
    pub(crate) count: usize,
}

/// Whether a line is still fresh, and its number, after these bytes.
fn moved(fresh: bool, line: u32, taken: &[u8]) -> (bool, u32)
    requires { line + length taken.now < 2 ^ 32 }
    ensures fresh { result.0 ≡ fresh_from fresh taken.now }
    ensures line { result.1 ≡ line + newlines taken.now }
{
    let mut fresh = fresh;
    let mut line = line;
    for b in taken {
        fresh = keeps_fresh(fresh, *b);
        if *b == b'\n' {
            line += 1;
        }
    }
    (fresh, line)
}

fn keeps_fresh(fresh: bool, b: u8) -> bool
    ensures { result ≡ fresh_from fresh (b ∷ []) }
{
    b == b'\n' || Class::Blank.has(b) && fresh
}

/// The token of a piece, where it gives one. A defined name is its constant.
fn kind_of(
    alloc: Global,
    defined: &Defined<'_>,
    found: &Found<'_>,
) -> Result<Option<TokenKind>, Memory>
    requires named { IsNamed (piece_of found.now) }
    requires fits { PieceFits (piece_of found.now) }
    requires known_fit { AllFit (known_by defined.now) }
    ensures value { IfOk result (λ k. k ≡ kind_at (known_by defined.now) (piece_of found.now)) }
    ensures fits { IfOk result (λ k. IfSome k TokenFits) }
{
    match found {
        Found::Nothing => Ok(None),
        Found::Definition { .. } => Ok(None),
        Found::Name { name } => {
            let constant = constant_of(defined, name);
            let kind = name_kind(alloc, constant, name)?;
            Ok(Some(kind))
        }
        Found::Constant { constant } => Ok(Some(constant_kind(*constant))),
        Found::Text { values } => {
            let kind = text_kind(alloc, values.as_slice())?;
            Ok(Some(kind))
        }
        Found::Punctuator { sign } => Ok(Some(TokenKind::Punctuator { sign: *sign })),
    }
}

fn constant_kind(constant: Constant) -> TokenKind
    ensures value { result ≡ constant_kind constant }
    ensures fits { Fits constant → TokenFits result }
{
    TokenKind::Constant {
        kind: constant.kind,
        value: constant.value,
    }
}

fn text_kind(alloc: Global, values: &[u8]) -> Result<TokenKind, Memory>
    ensures value { IfOk result (λ k. k ≡ TokenKind.Text values.now) }
    ensures fits { IfOk result TokenFits }
{
    let bytes = Seq::from_vec(Vec::from_slice(alloc, values)?);
    Ok(TokenKind::Text { bytes })
}

fn name_kind(alloc: Global, constant: Option<Constant>, name: &[u8]) -> Result<TokenKind, Memory>
    requires { IsName name.now }
    ensures value { IfOk result (λ k. k ≡ name_kind constant name.now) }
    ensures fits { IfSome constant Fits → IfOk result TokenFits }
{
    if let Some(constant) = constant {
        return Ok(constant_kind(constant));
    }
    if let Some(word) = word_of(name) {
        return Ok(TokenKind::Word { word });
    }
    match Name::new(alloc, name)? {
        Some(name) => Ok(TokenKind::Name { name }),
        None => unreachable!(),
    }
}

/// What is said where nothing stands at the byte.
fn refusal(line: u32, byte: u8) -> LexError
    ensures { result ≡ refusal_for line byte }
{
    if can_begin(byte) {
        LexError::BadToken { line }
    } else {
        LexError::BadByte { line }
    }
}

/// Whether a piece can begin with the byte.
fn can_begin(b: u8) -> bool
    ensures { result ≡ can_begin b }
{
    if is_letter(b) || b.is_ascii_digit() {
        return true;
    }
    if b == b'#' || b == b'\'' || b == b'"' {
        return true;
    }
    is_separator(b) || sign_of(&[b]).is_some()
}

/// Keeps a token where fewer than 100,000 came before it, and counts it.
fn keep(
    tokens: &mut Tokens,
    count: usize,
    line: u32,
    kind: Option<TokenKind>,
) -> Result<usize, Memory>
    requires room { MayFollow tokens.old count line kind }
    requires small { count < 2 ^ 32 }
    ensures count { IfOk result (λ n. n ≡ count + length (with_line line kind)) }
    ensures kept { OnOk result (tokens.new ≡ kept_with count tokens.old (with_line line kind)) }
{
    let Some(kind) = kind else {
        return Ok(count);
    };
    if count < MOST_TOKENS {
        let _known = tokens.as_slice();
        tokens.push(Token { kind, line })?;
    }
    Ok(count + 1)
}

/// Takes a definition among those that are known.
fn define<'a>(defined: &mut Defined<'a>, found: &Found<'a>) -> Result<(), Memory>
    ensures { OnOk result ((name : List ℕ) → known_by defined.new name ≡ known_after (known_by defined.old) (piece_of found.now) name) }
{
    match found {
        Found::Definition { name, constant } => {
            defined.insert(*name, *constant)?;
            Ok(())
        }
        _ => Ok(()),
    }
}

impl<'a> Lexer<'a> {
    ghost use Rattle.std.specs.Prelude.{◌≡◌, ◌<◌, ◌≤◌, ℕ, List, [], None, IsTrue, length, OnOk, IfErr};
    ghost use Rattle.c_syntax.specs.Limits.{most_bytes};
    ghost use Rattle.c_lexer.specs.State.{Roomy, Advances, Refuses};
    ghost use Rattle.c_lexer_pieces.specs.PieceFacts.{KnowsClosing};
    ghost use Rattle.c_lexer_pieces.specs.Found.{known_by};

    /// The start of a text of at most 1,048,576 bytes.
    pub(crate) fn new(alloc: Global, text: &'a [u8]) -> Lexer<'a>
        requires { length text.now ≤ most_bytes }
        ensures roomy { Roomy result }
        ensures left { result.left.now ≡ text.now }
        ensures closes { IsTrue result.closes }
        ensures fresh { IsTrue result.fresh }
        ensures line { result.line ≡ 1 }
        ensures known { (name : List ℕ) → known_by result.defined name ≡ None }
        ensures tokens { result.tokens ≡ [] }
        ensures count { result.count ≡ 0 }
    {
        Lexer {
            left: text,
            closes: true,
            fresh: true,
            line: 1,
            defined: BTreeMap::new(alloc),
            tokens: Tokens::new(alloc),
            count: 0,
        }
    }

    /// Takes the piece at the place.
    pub(crate) fn step(&mut self, alloc: Global) -> Result<(), LexError>
        requires has_byte { 0 < length self.old.left.now }
        requires roomy { Roomy self.old }
        requires closing { KnowsClosing self.old.closes self.old.left.now }
        ensures ok { OnOk result (Advances self.old self.new) }
        ensures roomy { OnOk result (Roomy self.new) }
        ensures closing { OnOk result (KnowsClosing self.new.closes self.new.left.now) }
        ensures shorter { OnOk result (length self.new.left.now < length self.old.left.now) }
        ensures err { IfErr result (Refuses self.old) }
    {
        let closes = may_close(self.closes, self.left);
        let Some((found, rest)) = piece_at(alloc, closes, self.fresh, &self.defined, self.left)?
        else {
            return Err(refusal(self.line, self.left[0]));
        };
        let kind = kind_of(alloc, &self.defined, &found)?;
        define(&mut self.defined, &found)?;
        self.count = keep(&mut self.tokens, self.count, self.line, kind)?;
        let taken = self.left.len() - rest.len();
        let (fresh, line) = moved(self.fresh, self.line, &self.left[..taken]);
        self.closes = closes;
        self.fresh = fresh;
        self.line = line;
        self.left = rest;
        Ok(())
    }
}
