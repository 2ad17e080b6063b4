//! The sampled program: each weighty function in a fast and a slow copy, and the program that has them (PLDI 2003 section 2).
#![tactic(auto)]

mod clones;
mod debts;
mod function;
mod layout;
mod parts;

pub use clones::clone_program;
pub use copied_nodes::{CopyLabel, Side};
