//! The predicates of labelled runs: their numbers, kept while runs come, go and change their labels, and the leader among them (PLDI 2005 section 3).
#![tactic(auto)]

mod labelled;
mod listed;
mod numbers;
mod predicates;
mod runs;
mod scan;

pub use labelled::{LabelledRun, fails, failures};
pub use listed::Listed;
pub use numbers::{Change, Counted, Numbers, counted_as, is_true};
pub use runs::{labelled_run, report_after};
pub use scan::leader_in;
