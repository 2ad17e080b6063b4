//! The parser: tokens to the one tree of the whole text.
#![tactic(auto)]

ghost use Rattle.std.specs.Prelude.{◌≡◌, ℕ, Err, IfOk};
ghost use Rattle.c_syntax.specs.Words.{SourceTree, IsKeptTree, plain_tree, tree_kinds, IsShaped};
ghost use Rattle.c_parser.specs.Parsed.{IsTreeOf, Refuses, IsReadAs, IsRefused};

mod error;
mod program;

use c_syntax::{Tokens, Tree};
pub use error::ParseError;
use std::alloc::Global;

/// The tree of a list of tokens, nested at most 200 deep. A refusal tells how many tokens stand in front of the item that has no tree, and the index of
/// a token from which none goes on. Want of memory is free.
pub fn parse(alloc: Global, tokens: &Tokens) -> Result<Tree, ParseError>
    ensures tree { IfOk result (λ t. IsTreeOf tokens.now (plain_tree t)) }
    ensures kept { IfOk result (λ t. IsKeptTree (plain_tree t)) }
    ensures syntax { (index item : ℕ) → result ≡ Err (ParseError.Syntax index item) → Refuses tokens.now index item }

    // .. and wherever there is a tree it is the answer, and where there is none they are refused, unless memory runs out.
    ensures read { (t : SourceTree) → IsTreeOf tokens.now t → IsReadAs t result }
    ensures refused { ((t : SourceTree) → IsTreeOf tokens.now t → ⊥) → IsRefused result }
{
    let _kept = tokens.as_slice();
    program::tree(alloc, tokens)
}

/// Tokens and lines have one tree: two of the grammar's trees that have the same ones are equal.
pub fn one_tree()
    ensures { (a b : SourceTree) → IsShaped a → IsShaped b → tree_kinds a ≡ tree_kinds b → a.lines ≡ b.lines → a ≡ b }
{}
