//! Runs by a plan that gives each number its bank and its input: the runs by the machine, and the report of each collected.
#![tactic(auto)]

mod input;
mod labels;
mod one_run;
mod plan;
mod runs;
mod sums;

pub use input::RunInput;
pub use labels::LabelCounts;
pub use plan::RunPlan;
pub use runs::{PlannedRuns, run_planned};
pub use sums::Sums;
