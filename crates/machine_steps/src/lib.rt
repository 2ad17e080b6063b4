//! How a run of a program begins, and what it does at a place: a stride of several steps at once, or one step.
#![tactic(auto)]

mod calls;
mod several;
mod start;
mod steps;
mod strides;

pub use start::begin;
pub use steps::step;
