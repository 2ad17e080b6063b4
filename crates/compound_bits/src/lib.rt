//! Rows of facts, as of a predicate in many runs: at each place whether the fact is true and whether it is known. They are kept as bits, 64 places to a
//! word, and two rows are compared a word at a time.
#![tactic(auto)]

mod row;

pub use row::{FactRow, count_both};
