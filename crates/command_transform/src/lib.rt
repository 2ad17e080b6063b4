//! What the command `transform` does: it compiles a C text.
#![tactic(auto)]

mod command;

pub use command::TransformCall;
