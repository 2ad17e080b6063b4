//! The interpreter: runs a program on an input, with a bank of countdowns, as the definition of the machine says. The bound of turns is its fuel.
#![tactic(auto)]

mod pending;
mod runs;
mod watch;

pub use flow::RunResult;
pub use machine_code::Prepared;
pub use runs::{run, run_prepared};
