//! What the command `rank` does: it ranks the predicates of a program by the runs of a collection.
#![tactic(auto)]

mod command;

pub use command::RankCall;
