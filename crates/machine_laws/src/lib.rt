//! Laws of the machine: each run ends, what its sites may see, and that a collection takes its report.
#![tactic(auto)]

mod laws;

pub use laws::{each_run_ends, reports_of_runs_are_taken, sites_see_what_they_may};
