ghost use Rattle.std.specs.Prelude.{◌≡◌, IfErr, IfOk, IsErr};
ghost use Rattle.c_syntax.specs.Words.{IsKeptTree, line_at, lines_of, plain_tree};
ghost use Rattle.c_types.specs.Answers.{known_of, tree_of};
ghost use Rattle.compiler.specs.Accepted.{HasTokens, HasTree, IsAccepted};
ghost use Rattle.compiler.specs.Rejected.{IsRejectedText, RejectedBy};

use crate::text_error::TextError;
use c_lexer::{LexError, lex};
use c_parser::{ParseError, parse};
use c_syntax::{Tokens, Tree, line_of};
use c_types::{Checked, TypeFault, check};
use cbi_base::Refusal;
use std::alloc::Global;

/// The line of the token at the index; past the last it is that of the last token, or 1 where there is none.
fn line_at(tokens: &Tokens, index: usize) -> u32
    ensures { result ≡ line_at (lines_of tokens.now) index }
{
    line_of(tokens, index.min(tokens.as_slice().len()))
}

/// The tokens of a text.
fn tokens_of(alloc: Global, text: &[u8]) -> Result<Tokens, TextError>
    ensures tokens { IfOk result (λ ts. HasTokens text.now ts) }
    ensures refused { IfErr result (RejectedBy text.now) }
{
    let refusal = match lex(alloc, text) {
        Ok(tokens) => return Ok(tokens),
        Err(LexError::Memory) => return Err(TextError::Memory),
        Err(LexError::BadByte { line }) => Refusal::BadByte { line },
        Err(LexError::BadToken { line }) => Refusal::BadToken { line },
        Err(LexError::TooLarge) => Refusal::TooLarge,
    };
    Err(TextError::Refused { refusal })
}

/// The tree of a text with these tokens.
fn tree_with(alloc: Global, text: &[u8], tokens: &Tokens) -> Result<Tree, TextError>
    requires { HasTokens text.now tokens.now }
    ensures tree { IfOk result (λ tree. HasTree text.now tokens.now (plain_tree tree)) }
    ensures kept { IfOk result (λ tree. IsKeptTree (plain_tree tree)) }
    ensures refused { IfErr result (RejectedBy text.now) }
{
    match parse(alloc, tokens) {
        Ok(tree) => Ok(tree),
        Err(ParseError::Memory) => Err(TextError::Memory),
        Err(ParseError::Syntax { index, .. }) => {
            let line = line_at(tokens, index);
            let refusal = Refusal::Syntax { line };
            Err(TextError::Refused { refusal })
        }
    }
}

/// A text's tree, checked. A text is refused by the first cause in this order: its tokens, its tree, and then its types. A refusal has the line of
/// the byte or of the token where it stands; one past the last token it has the last token's line, or 1 where there is none. Of a text without a
/// tree it is the first token from which no tree goes on; that it is the first one, no clause says.
pub fn accept(alloc: Global, text: &[u8]) -> Result<Checked, TextError>
    ensures accepted { IfOk result (λ c. IsAccepted text.now (tree_of c) (known_of c)) }
    ensures refused { IfErr result (RejectedBy text.now) }
    ensures refused_only { IsRejectedText text.now → IsErr result }
{
    let tokens = tokens_of(alloc, text)?;
    let tree = tree_with(alloc, text, &tokens)?;
    match check(alloc, tree) {
        Ok(checked) => Ok(checked),
        Err(TypeFault::Memory) => Err(TextError::Memory),
        Err(TypeFault::BadType { kind, index }) => {
            let line = line_at(&tokens, index);
            let refusal = Refusal::BadType { kind, line };
            Err(TextError::Refused { refusal })
        }
    }
}
