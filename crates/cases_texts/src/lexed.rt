//! Tokens, each with its line, and the tree of a text.
use crate::read::{line_at, tokens_of, tree_of};
use c_syntax::{Token, TokenKind};
use cases_rows::Page;
use cases_trees::show_tree;

/// Adds what a token is. Of a name its length stands there.
fn push_kind(kind: &TokenKind, out: &mut Page) {
    match kind {
        TokenKind::Word { word } => out.debug(*word),
        TokenKind::Punctuator { sign } => out.debug(*sign),
        TokenKind::Name { name } => {
            out.say("name ");
            out.debug(name.bytes().len());
        }
        TokenKind::Constant { kind, value } => {
            out.debug(*kind);
            out.say(" ");
            out.debug(*value);
        }
        TokenKind::Text { bytes } => out.debug(bytes.as_slice()),
    }
}

fn push_token(token: &Token, out: &mut Page) {
    if !out.is_empty() {
        out.say(" ");
    }
    out.number(token.line);
    out.say(":");
    push_kind(&token.kind, out);
}

/// Adds the tokens of a text.
pub(crate) fn push_tokens(text: &[u8], out: &mut Page) {
    if let Some(tokens) = tokens_of(text, out) {
        for token in tokens.as_slice() {
            push_token(token, out);
        }
    }
}

/// Adds how many tokens a text has.
pub(crate) fn push_length(text: &[u8], out: &mut Page) {
    if let Some(tokens) = tokens_of(text, out) {
        out.debug(tokens.as_slice().len());
    }
}

/// Adds the line of a token.
pub(crate) fn push_line(text: &[u8], token: usize, out: &mut Page) {
    if let Some(tokens) = tokens_of(text, out) {
        out.number(line_at(&tokens, token));
    }
}

/// Adds the tree of a text.
pub(crate) fn push_tree(text: &[u8], out: &mut Page) {
    if let Some(tree) = tree_of(text, out) {
        show_tree(out, &tree);
    }
}
