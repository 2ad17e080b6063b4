//! What the command `pairs` does: it finds the best pair of predicates of a program over the runs of a collection.
#![tactic(auto)]

mod command;

pub use command::PairsCall;
