//! Best pairs of predicates over made runs, as the rows of files ask for them, each beside a plain body that counts every pair anew.
#![tactic(auto)]

mod collected;
mod finding;
mod formulas;
mod made;
mod plain;
mod row;
mod thrown;

pub use row::PairRows;
