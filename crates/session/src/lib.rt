//! A session: reports come, are taken back and get other labels, and after any such edit the leader is at hand.
#![tactic(auto)]

mod kept;
mod session;

pub use session::Session;
