//! The text of a ranking: CSV with a header, and a row for each listed predicate.
#![tactic(auto)]

mod laws;
mod line;
mod place;
mod plain;
mod ranked;
mod ranking;
mod shares;

pub use laws::eliminations_are_rows;
pub use ranked::ranking_of;
pub use ranking::ranking_text;
