//! How far a text is read, with an answer where it isn't.
ghost use Rattle.std.specs.Prelude.{IfSome};
ghost use Rattle.c_syntax.specs.Words.{IsKeptTree, plain_tree};

use c_lexer::lex;
use c_parser::{ParseError, parse};
use c_syntax::{Tokens, Tree, line_of};
use c_types::{Checked, TypeFault, check};
use cases_rows::Page;

/// The tokens of a text, or why it has none.
pub(crate) fn tokens_of(text: &[u8], out: &mut Page) -> Option<Tokens> {
    match lex(out.alloc(), text) {
        Ok(tokens) => Some(tokens),
        Err(error) => {
            out.debug(error);
            None
        }
    }
}

/// The line of the token at the index, or 0 where there are fewer.
pub(crate) fn line_at(tokens: &Tokens, index: usize) -> u32 {
    if index <= tokens.as_slice().len() {
        line_of(tokens, index)
    } else {
        0
    }
}

fn push_syntax(tokens: &Tokens, index: usize, item: usize, out: &mut Page) {
    out.say("line ");
    out.number(line_at(tokens, index));
    out.say(", index ");
    out.debug(index);
    out.say(", item ");
    out.debug(item);
}

fn tree_with(tokens: &Tokens, out: &mut Page) -> Option<Tree>
    ensures { IfSome result (λ tree. IsKeptTree (plain_tree tree)) }
{
    match parse(out.alloc(), tokens) {
        Ok(tree) => Some(tree),
        Err(ParseError::Memory) => {
            out.want();
            None
        }
        Err(ParseError::Syntax { index, item }) => {
            push_syntax(tokens, index, item, out);
            None
        }
    }
}

/// The tree of a text, or why it has none.
pub(crate) fn tree_of(text: &[u8], out: &mut Page) -> Option<Tree>
    ensures { IfSome result (λ tree. IsKeptTree (plain_tree tree)) }
{
    match tokens_of(text, out) {
        Some(tokens) => tree_with(&tokens, out),
        None => None,
    }
}

fn push_fault(kind: u8, index: usize, out: &mut Page) {
    out.say("fault ");
    out.number(kind);
    out.say(" at ");
    out.debug(index);
}

fn checked_tree(tree: Tree, out: &mut Page) -> Option<Checked>
    requires { IsKeptTree (plain_tree tree) }
{
    match check(out.alloc(), tree) {
        Ok(checked) => Some(checked),
        Err(TypeFault::Memory) => {
            out.want();
            None
        }
        Err(TypeFault::BadType { kind, index }) => {
            push_fault(kind, index, out);
            None
        }
    }
}

/// What is known of a text, or why it isn't accepted.
pub(crate) fn checked_of(text: &[u8], out: &mut Page) -> Option<Checked> {
    match tree_of(text, out) {
        Some(tree) => checked_tree(tree, out),
        None => None,
    }
}
