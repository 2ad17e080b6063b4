//! The runs of a study: the bank and the line that are made for each number, the runs on them by the machine, and the report of each collected.
#![tactic(auto)]

mod fault;
mod laws;
mod made_plan;
mod made_run;
mod plan;
mod runs;

pub use fault::RunsFault;
pub use laws::{made_lines_are_printable, one_made_run, one_study};
pub use made_run::{MadeRun, make_run};
pub use plan::StudyPlan;
pub use planned_runs::Sums;
pub use runs::{StudyRuns, run_all};
