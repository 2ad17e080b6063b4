//! What the shared types answer, as the rows of files ask for it.
#![tactic(auto)]

mod devices;
mod narrow;
mod real;
mod row;
mod tables;
mod texts;

pub use row::BaseRows;
