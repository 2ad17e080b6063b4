//! Expressions of a text as graphs of nodes.
#![tactic(auto)]

mod calls;
mod chains;
mod choices;
mod conditions;
mod expressions;
mod operators;
mod places;
mod postfix;
mod truths;

pub use conditions::emit_condition;
pub use expressions::{emit, emit_effect, emit_value, emit_wanted};
pub use places::emit_place;
