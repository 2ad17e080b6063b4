ghost use Rattle.std.specs.Prelude.{◌≡◌, ◌≤◌, length, [], ◌∷◌, ◌++◌, OnOk, OnErr};
ghost use Rattle.c_syntax.specs.Tokens.{IsTokens, line_at, lines_of};

use crate::token::Token;
use cbi_base::Memory;
use std::alloc::Global;
use std::marker::Model;

/// The tokens of a text. There are at most 100,000 of them, their lines never fall and are from 1 to 1,048,577, and their
/// strings have together fewer than 1,048,576 bytes. Contracts see them as a list.
#[derive(Drop)]
pub struct Tokens {
    list: Vec<Token>,
}

impl Model for Tokens {
    ghost use Rattle.std.specs.Prelude.{List};
    ghost use Rattle.c_syntax.specs.declared.token.Token.{Token};
    ghost use Rattle.c_syntax.specs.Tokens.{IsTokens};

    ghost Value = { List Token };

    ghost view = { λ t. t.list.items };

    ghost invariant = { λ t. IsTokens t.list.items };
}

impl Tokens {
    /// No tokens.
    pub fn new(alloc: Global) -> Tokens
        ensures { result ≡ [] }
    {
        Tokens {
            list: Vec::new(alloc),
        }
    }

    /// The tokens, in order.
    pub fn as_slice(&self) -> &[Token]
        ensures value { result.now ≡ self.now }
        ensures bounds { IsTokens self.now }
    {
        self.list.as_slice()
    }

    /// One more token at the end.
    pub fn push(&mut self, token: Token) -> Result<(), Memory>
        requires { IsTokens (self.old ++ token ∷ []) }
        ensures ok { OnOk result (self.new ≡ self.old ++ token ∷ []) }
        ensures err { OnErr result (self.new ≡ self.old) }
    {
        self.list.push(token)?;
        Ok(())
    }
}

/// The line of the token at the index. One past the last it is that of the last token, or 1 where there is none.
pub fn line_of(tokens: &Tokens, index: usize) -> u32
    requires { index ≤ length tokens.now }
    ensures { result ≡ line_at (lines_of tokens.now) index }
{
    let list = tokens.as_slice();
    match list.get(index).or(list.last()) {
        Some(token) => token.line,
        None => 1,
    }
}
