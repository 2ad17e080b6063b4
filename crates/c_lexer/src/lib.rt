//! The lexer: a text of the C dialect is cut into its tokens.
#![tactic(auto)]

ghost use Rattle.std.specs.Prelude.{◌≡◌, true, false, ◌≤◌, ◌<◌, ◌⊎◌, ℕ, List, length, IfOk};
ghost use Rattle.c_syntax.specs.declared.token.Token.{Token};
ghost use Rattle.c_syntax.specs.Limits.{most_bytes};
ghost use Rattle.c_lexer.specs.Lexing.{CutStops, Lexes};
ghost use Rattle.c_lexer.specs.Refusals.{LexAnswerHolds, CuttingStops, IsTooLarge, lexed_answer, refusal_for};
ghost use Rattle.c_lexer.specs.Endings.{CutEnds, Ending};

mod error;
mod lexer;

use c_syntax::Tokens;
pub use error::LexError;
use lexer::{Lexer, MOST_TOKENS};
use std::alloc::Global;

/// The longest text, in bytes.
const LONGEST_TEXT: usize = 1_048_576;

/// The tokens of a text of at most 1,048,576 bytes.
fn lex_all(alloc: Global, text: &[u8]) -> Result<Tokens, LexError>
    requires { length text.now ≤ most_bytes }
    ensures { LexAnswerHolds text.now result }
{
    let mut lexer = Lexer::new(alloc, text);
    'pieces: while !lexer.left.is_empty() {
        lexer.step(alloc)?;
    }
    if lexer.count > MOST_TOKENS {
        return Err(LexError::TooLarge);
    }
    Ok(lexer.tokens)
}

/// The tokens of a text. It is too large where it has more than 1,048,576 bytes or more than 100,000 tokens, and else refused at the line where no piece
/// can be cut. Want of memory is free.
pub fn lex(alloc: Global, text: &[u8]) -> Result<Tokens, LexError>
    ensures tokens { IfOk result (λ ts. Lexes text.now ts) }

    // Each refusal comes only where its cause holds ..
    ensures too_large { result ≡ Err LexError.TooLarge → IsTooLarge text.now }
    ensures bad_byte { (line : ℕ) → result ≡ Err (LexError.BadByte line) → CuttingStops text.now line false }
    ensures bad_token { (line : ℕ) → result ≡ Err (LexError.BadToken line) → CuttingStops text.now line true }

    // .. and wherever its cause holds, unless memory runs out.
    ensures long { most_bytes < length text.now → result ≡ Err LexError.TooLarge }
    ensures lexed { length text.now ≤ most_bytes → (ts : List Token) → Lexes text.now ts →
        (result ≡ lexed_answer ts) ⊎ (result ≡ Err LexError.Memory) }
    ensures stopped { length text.now ≤ most_bytes → (line byte : ℕ) → CutStops text.now line byte →
        (result ≡ Err (refusal_for line byte)) ⊎ (result ≡ Err LexError.Memory) }
{
    if text.len() > LONGEST_TEXT {
        return Err(LexError::TooLarge);
    }
    lex_all(alloc, text)
}

/// A text is cut in one way: to its end with one list of tokens, or up to one byte.
pub fn one_cutting()
    ensures { (text : List ℕ) (a b : Ending) → CutEnds text a → CutEnds text b → a ≡ b }
{}
