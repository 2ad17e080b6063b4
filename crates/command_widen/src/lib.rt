//! What the command `widen` does: it writes the runs of a program with a part of the sites as runs of the whole program.
#![tactic(auto)]

mod checks;
mod command;
mod loaded;
mod texts;
mod wide;

pub use command::WidenCall;
pub use loaded::Loaded;
pub use texts::WidenTexts;
