//! From a text to the ranking of the made runs of its sampled program.
#![tactic(auto)]

mod laws;
mod ranked;

pub use laws::studies_agree;
pub use ranked::{StudyFault, StudyResult, study};
