//! Exact numbers for the ranking of predicates: the test, the logarithm and the score of PLDI 2005 section 3, without
//! floating point.
#![tactic(auto)]

mod fraction;
mod logarithm;
mod tally;

pub use fraction::{Fraction, compare, millionths, order_is_transitive};
pub use logarithm::{log_fixed, number_is_power_times_mantissa};
pub use tally::{Tally, confident, importance};
