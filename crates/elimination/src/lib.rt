//! Iterative elimination (PLDI 2005): what a policy leaves of labelled runs after their leader, and the list of all leaders.
#![tactic(auto)]

mod books;
mod eliminator;
mod laws;
mod tally_table;

pub use eliminator::{Eliminator, counted_elimination, elimination};
pub use laws::{entries_are_taken_once, one_elimination, predicates_are_those_of_the_table};
pub use tally_table::{Steps, TallyTable, elimination_from};
