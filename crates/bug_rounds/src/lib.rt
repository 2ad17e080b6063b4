//! Bugs: rounds over the runs of a collection, each of which finds the best predicate over the live failing runs and discards the failing runs in which it
//! was true.
#![tactic(auto)]

mod bug;
mod bugs;
mod laws;
mod live;
mod search;
mod text;

pub use bug::Bug;
pub use bugs::bugs_of;
pub use laws::{bugs_share_the_failing_runs, rounds_are_of_elimination, there_is_one_text_of_bugs};
