//! What the command `study` does: it makes runs of a C text and ranks its predicates by them.
#![tactic(auto)]

mod command;

pub use command::study_text;
