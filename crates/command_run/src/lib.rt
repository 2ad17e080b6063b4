//! What the command `run` does: it runs a program file and writes the report of the run.
#![tactic(auto)]

mod command;
mod files;
mod publish;

pub use command::run_file;
pub use files::{INPUT_LIMIT, read_where};
