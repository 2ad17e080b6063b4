//! What the command `lines` does: it lists the suspicious lines of a program by the runs of a collection.
#![tactic(auto)]

mod command;

pub use command::LinesCall;
