//! What the command `bugs` does: it lists the bugs of a program by the runs of a collection, each with the failing runs that it explains.
#![tactic(auto)]

mod command;

pub use command::BugsCall;
