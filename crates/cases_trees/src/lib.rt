//! Trees as text, for what looks at them: each operator with its operands in one pair of parentheses, each statement and declaration with its parts.
#![tactic(auto)]

mod expressions;
mod items;
mod statements;

pub use items::show_tree;
