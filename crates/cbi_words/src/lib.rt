//! The words of a command line: which command they read as.
#![tactic(auto)]

mod command;
mod error;
mod read;

pub use command::Command;
pub use error::WordsError;
pub use read::read_words;
