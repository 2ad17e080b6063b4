//! Program files, banks, lists of names, reports and collections as they are read, written and grown, the numbers of rankings, eliminations, cards,
//! suspicious lines and bugs, as the rows of files ask for them.
#![tactic(auto)]

mod bytes;
mod card_rows;
mod collecting;
mod finding;
mod line_rows;
mod numbers;
mod ranking_rows;
mod reading;
mod row;
mod session_rows;
mod thrown;

pub use row::FileRows;
