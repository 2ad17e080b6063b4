//! The second part of the check of types: the walk through declarations, statements and the items of a text.
#![tactic(auto)]

mod declarators;
mod initialisers;
mod item_walk;
mod params;
mod statement_walk;
mod struct_walk;

pub use item_walk::{is_defined, walk_items};
