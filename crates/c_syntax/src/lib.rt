//! Tokens and syntax trees of the C dialect, and what they spell.
#![tactic(auto)]

mod expr;
mod first_token;
mod parts;
mod same;
mod statement;
mod token;
mod tokens;
mod tree;

pub use expr::{Expr, Link, PostfixOperator, PrefixOperator};
pub use parts::{Base, Bound, Constant, Declarator, Members, Param, ParamName, Params};
pub use same::plain_trees_lose_nothing;
pub use statement::{Declaration, Entry, ForStart, Initial, Start, Statement};
pub use token::{Sign, Token, TokenKind, Word};
pub use tokens::{Tokens, line_of};
pub use tree::{Item, Tree};
