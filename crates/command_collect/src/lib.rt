//! What the command `collect` does: it adds reports to a collection of a program.
#![tactic(auto)]

mod command;
mod gather;
mod reports;

pub use command::CollectCall;
