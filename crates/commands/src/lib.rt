//! Dispatch: which command does what the words ask for.
#![tactic(auto)]

mod dispatch;

pub use dispatch::obey;
