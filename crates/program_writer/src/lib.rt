//! The text of a program, as which it is read again, and the identity of a text.
#![tactic(auto)]

mod identity;
mod write;
mod write_cells;
mod write_function;
mod write_node;
mod write_site;
mod write_words;

pub use identity::program_id;
pub use write::{write_program, written_program};
