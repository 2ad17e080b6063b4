//! How the tool and its commands are used, as text.
#![tactic(auto)]

mod help;

pub use help::{bad_value_line, usage};
