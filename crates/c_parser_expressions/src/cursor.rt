ghost use Rattle.std.specs.Prelude.{◌≡◌, ◌≤◌, ◌+◌, IsTrue, ◌↔◌, Some, length, []};
ghost use Rattle.c_syntax.specs.Tokens.{kinds_of};
ghost use Rattle.std.specs.Option.{IsSome, option_copied};
ghost use Rattle.c_parser_expressions.specs.declared.stop.Stop.TheVariants as stop;
ghost use Rattle.c_parser_expressions.specs.Reading.{Cursor, first_kind, kinds_behind_first, next_cursor, sign_at, word_at, text_at};
ghost use Rattle.c_parser_expressions.specs.ExpressionParser.{is_base_kind, begins_type, opens_type};
ghost use Rattle.c_parser_expressions.specs.Marks.{sign_mark, begins_with_sign, word_mark, begins_with_word};
ghost use Rattle.c_parser_expressions.specs.Steps.{Gives, the_sign, the_word, the_name};

use crate::stop::Stop;
use c_syntax::{Sign, Token, TokenKind, Word};
use cbi_base::{Name, Seq};
use std::marker::Model;

/// The tokens that are left, and the index of the first of them.
#[derive(Drop)]
pub struct Reader<'a> {
    left: &'a [Token],
    at: usize,
}

impl<'a> Model for Reader<'a> {
    ghost use Rattle.std.specs.Prelude.{map, length, ◌+◌, ◌≤◌};
    ghost use Rattle.c_parser_expressions.specs.Reading.{Cursor};

    ghost Value = { Cursor };

    ghost view = { λ r. record { at = r.at; rest = map (λ t. t.kind) r.left.now } };

    ghost invariant = { λ r. r.at + length r.left.now ≤ 100000 };
}

/// Whether a type's base begins with the token.
fn is_base(token: Option<&TokenKind>) -> bool
    ensures { result ≡ is_base_kind (option_copied token.entry) }
{
    match token {
        Some(TokenKind::Word { word }) => matches!(
            word,
            Word::Void | Word::Char | Word::Int | Word::Unsigned | Word::Struct
        ),
        _ => false,
    }
}

impl<'a> Reader<'a> {
    /// At the first of the tokens.
    pub fn new(left: &'a [Token]) -> Reader<'a>
        requires { length left.now ≤ 100000 }
        ensures { result ≡ record { at = 0; rest = kinds_of left.now } }
    {
        Reader { left, at: 0 }
    }

    /// Whether no token is left.
    pub fn is_empty(&self) -> bool
        ensures { IsTrue result ↔ (self.now.rest ≡ []) }
    {
        self.left.is_empty()
    }

    /// What the next token is.
    pub fn next(&self) -> Option<&'a TokenKind>
        ensures { option_copied result ≡ first_kind self.now.rest }
    {
        let token = self.left.first()?;
        Some(&token.kind)
    }

    /// The index of the next token.
    pub fn at(&self) -> u32
        ensures value { result ≡ self.now.at }
        ensures small { result ≤ 100000 }
    {
        self.at as u32
    }

    /// Goes past the next token.
    pub fn pass(&mut self)
        requires { IsSome (first_kind self.old.rest) }
        ensures { self.new ≡ next_cursor self.old }
    {
        self.left = &self.left[1..];
        self.at += 1;
    }

    /// Refuses the next token.
    pub fn refuse(&self) -> Stop
        ensures { result ≡ stop.Refused self.now.at }
    {
        Stop::Refused { index: self.at }
    }

    /// The sign that the next token is.
    pub(crate) fn sign(&self) -> Option<Sign>
        ensures { result ≡ sign_at self.now.rest }
    {
        match self.next() {
            Some(TokenKind::Punctuator { sign }) => Some(*sign),
            _ => None,
        }
    }

    fn is_sign(&self, sign: Sign) -> bool
        ensures { IsTrue result ↔ (sign_at self.now.rest ≡ Some sign) }
    {
        if let Some(next) = self.sign() {
            if next == sign {
                return true;
            }
        }
        false
    }

    fn is_word(&self, word: Word) -> bool
        ensures { IsTrue result ↔ (word_at self.now.rest ≡ Some word) }
    {
        match self.next() {
            Some(TokenKind::Word { word: next }) => *next == word,
            _ => false,
        }
    }

    /// Whether the next token is the sign.
    pub fn stands(&self, sign: Sign) -> bool
        requires { 1 ≤ sign_mark sign }
        ensures { result ≡ begins_with_sign sign self.now.rest }
    {
        self.is_sign(sign)
    }

    /// Whether the next token is the word.
    pub fn says(&self, word: Word) -> bool
        requires { 1 ≤ word_mark word }
        ensures { result ≡ begins_with_word word self.now.rest }
    {
        self.is_word(word)
    }

    /// The word that the next token is.
    pub fn word(&self) -> Option<Word>
        ensures { result ≡ word_at self.now.rest }
    {
        match self.next() {
            Some(TokenKind::Word { word }) => Some(*word),
            _ => None,
        }
    }

    /// The string that the next token is.
    pub(crate) fn text(&self) -> Option<&'a Seq<u8>>
        ensures { option_copied result ≡ text_at self.now.rest }
    {
        match self.next() {
            Some(TokenKind::Text { bytes }) => Some(bytes),
            _ => None,
        }
    }

    /// What the token behind the next one is.
    fn second(&self) -> Option<&'a TokenKind>
        ensures { option_copied result ≡ first_kind (kinds_behind_first self.now.rest) }
    {
        let token = self.left.get(1)?;
        Some(&token.kind)
    }

    /// Whether the token behind the next one is the sign.
    #[tactic(auto, using(crate::proofs::Heads::stands_iff))]
    pub fn stands_behind(&self, sign: Sign) -> bool
        requires { 1 ≤ sign_mark sign }
        ensures { result ≡ begins_with_sign sign (kinds_behind_first self.now.rest) }
    {
        self.is_sign_behind(sign)
    }

    fn sign_behind(&self) -> Option<Sign>
        ensures { result ≡ sign_at (kinds_behind_first self.now.rest) }
    {
        match self.second() {
            Some(TokenKind::Punctuator { sign }) => Some(*sign),
            _ => None,
        }
    }

    fn is_sign_behind(&self, sign: Sign) -> bool
        ensures { IsTrue result ↔ (sign_at (kinds_behind_first self.now.rest) ≡ Some sign) }
    {
        if let Some(next) = self.sign_behind() {
            if next == sign {
                return true;
            }
        }
        false
    }

    /// Whether a type's base begins with the next token.
    pub fn begins_type(&self) -> bool
        ensures { result ≡ begins_type self.now.rest }
    {
        is_base(self.next())
    }

    /// Whether the next token is a parenthesis with a type in it.
    pub(crate) fn opens_type(&self) -> bool
        ensures { result ≡ opens_type self.now.rest }
    {
        if !self.stands(Sign::LeftParen) {
            return false;
        }
        is_base(self.second())
    }

    /// Goes past the sign, or refuses the next token.
    #[tactic(auto, using(crate::proofs::Heads::stands_some), unfolding(crate::specs::Steps::the_sign))]
    pub fn expect(&mut self, sign: Sign) -> Result<(), Stop>
        requires { 1 ≤ sign_mark sign }
        ensures { Gives (λ u. u) result self.new (the_sign sign self.old) }
    {
        if self.stands(sign) {
            self.pass();
            return Ok(());
        }
        Err(self.refuse())
    }

    /// Goes past the word, or refuses the next token.
    #[tactic(auto, using(crate::proofs::Heads::says_some), unfolding(crate::specs::Steps::the_word))]
    pub fn expect_word(&mut self, word: Word) -> Result<(), Stop>
        requires { 1 ≤ word_mark word }
        ensures { Gives (λ u. u) result self.new (the_word word self.old) }
    {
        if self.says(word) {
            self.pass();
            return Ok(());
        }
        Err(self.refuse())
    }

    /// A copy of the name that the next token is, and goes past it.
    #[tactic(auto, unfolding(crate::specs::Steps::the_name))]
    pub fn name(&mut self) -> Result<Name, Stop>
        ensures { Gives (λ n. n) result self.new (the_name self.old) }
    {
        match self.next() {
            Some(TokenKind::Name { name }) => {
                let name = name.try_clone()?;
                self.pass();
                Ok(name)
            }
            _ => Err(self.refuse()),
        }
    }
}
