//! Edits of a session: reports that are added, removed and relabelled, and rankings that are asked for; their text, and what they leave.
#![tactic(auto)]

mod draft;
mod edit;
mod laws;
mod lines;
mod reading;

pub use edit::Edit;
pub use laws::{one_list, one_state};
pub use reading::{EditsError, read_edits};
