//! The sampled program, which does what the original one does, and observes exactly the sampled visits of sites (PLDI 2003 section 2).
#![tactic(auto)]

mod laws;
mod plain;
mod sampled;

pub use laws::{
    copies_are_chosen_at_regions, fast_copies_look_at_nothing, fast_ways_look_at_nothing,
    one_labelling, sampled_runs,
};
pub use plain::{NODES_LIMIT, may_clone};
pub use sampled::sample;
