//! Fault localisation: the lines of a program by the strength of their best predicates over the runs of a collection.
#![tactic(auto)]

mod laws;
mod lines;
mod listing;
mod places;
mod suspects;
mod text;
mod totals;

pub use laws::{
    lines_are_the_best_of_their_places, suspects_are_the_predicates, there_is_one_text,
};
pub use lines::lines_of;
pub use listing::listed;
pub use suspects::suspects_by;
pub use text::{push_number, push_place, push_strength, push_tally, push_word};
pub use totals::{Totals, totals_of};
