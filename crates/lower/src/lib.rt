//! Lowering: from the abstract syntax of a checked text to a control-flow graph that does what the text means.
#![tactic(auto)]

mod functions;
mod programs;

pub use programs::lower;
