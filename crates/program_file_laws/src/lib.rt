//! Laws: what the grammar of program files, line by line, says in the words of their spelling.
#![tactic(auto)]

mod laws;

pub use laws::{program_lines_are_spelled, spelled_lines_come};
