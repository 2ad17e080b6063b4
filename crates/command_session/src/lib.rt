//! What the command `session` does: it does the edits of a file one after another, and writes the rankings that they ask for.
#![tactic(auto)]

mod command;
mod replayed;

pub use command::SessionCall;
pub use replayed::SessionTexts;
