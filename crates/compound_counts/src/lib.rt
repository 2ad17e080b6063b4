//! In how many runs of a collection a pair of predicates is true, and in how many it is known whether it is: by rows of bits, one for each predicate.
#![tactic(auto)]

mod counter;
mod labels;
mod watch;

pub use counter::PairCounter;
pub use labels::failing_runs;
