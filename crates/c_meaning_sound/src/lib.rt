//! Soundness of type checking: no run of an accepted text gets stuck (trap `Internal`), and its sites change nothing but what is observed.
#![tactic(auto)]

mod laws;

pub use laws::{an_accepted_text_never_faults, sites_of_an_accepted_text_stand};
