//! Statements and declarations of a text as graphs of nodes.
#![tactic(auto)]

mod exits;
mod initialisers;
mod statements;

pub use exits::{Exits, next_at};
pub use statements::emit_entries;
