//! What the parser reads of statements and of the entries of a block.
#![tactic(auto)]

mod statement;

pub use statement::entries;
