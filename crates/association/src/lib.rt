//! How strongly a predicate goes with failing, by the chi-square statistic of its 2x2 table (the square of the phi coefficient), and the order of predicates
//! by it.
#![tactic(auto)]

mod contingency;
mod laws;
mod suspect;

pub use contingency::{Contingency, compare_strengths, strength_in_millionths};
pub use laws::{order_is_strict_and_total, strength_is_a_square_of_correlation};
pub use suspect::{Scheme, Suspect, is_better, table_of};
