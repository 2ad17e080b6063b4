//! Runs of programs and of sampled programs, what watchers and predicates say, and values of operations, as the rows of files ask for them.
#![tactic(auto)]

mod building;
mod row;
mod runs;
mod values;
mod watching;

pub use row::MachineRows;
