//! The message on stderr for each way in which a call ends, and the exit status after it is written.
#![tactic(auto)]

mod message;

pub use message::{tell_done, tell_fault, tell_usage};
