//! What a watcher of a run is, and how several watchers are told.
#![tactic(auto)]

mod probe;
mod told;

pub use probe::Probe;
pub use told::{push_lines, tell_all};
