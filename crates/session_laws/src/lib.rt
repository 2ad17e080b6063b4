//! Laws: what a list of edits leaves of a collection.
#![tactic(auto)]

mod laws;

pub use laws::{accepted_edits_hold, additions_are_collected, edits_change_places, one_ending};
