//! The lines of nodes that hold a signed number: `push`, with its kind, and `move`.
#![tactic(auto)]

mod values;
mod words;

pub use values::{read_move, read_push};
pub use words::read_kind;
