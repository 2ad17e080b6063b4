//! What the command `runs` does: it runs a program on each input of a list, and writes the collection of the reports.
#![tactic(auto)]

mod command;
mod lists;
mod plan;
mod texts;

pub use command::make_runs;
