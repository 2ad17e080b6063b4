//! The program files and collections that commands read.
#![tactic(auto)]

mod collections;
mod programs;
mod runs;

pub use collections::{FILE_LIMIT, fault_of, load_collection};
pub use programs::load_program;
pub use runs::{RunsTexts, read_runs};
