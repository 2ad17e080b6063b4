//! Where a run of a program stands, its countdown, and what its sites see.
#![tactic(auto)]

mod countdown;
mod look;
mod state;

pub use countdown::{export, import, in_force, mark, pick, set_force, skip, test};
pub use state::{Frame, State, again, fork};
