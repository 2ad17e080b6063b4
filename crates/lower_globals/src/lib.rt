//! The globals of a checked tree, with what they begin with.
#![tactic(auto)]

mod constants;
mod global_cells;
mod globals;
mod tree_globals;
mod zeros;

pub use globals::{globals_of_starts, zeros_of_structs};
pub use tree_globals::globals_of_text;
