//! What is known of a checked tree and a site table, by token.
#![tactic(auto)]

mod facts;
mod function_types;
mod functions;
mod values;

pub use facts::TreeFacts;
pub use function_types::Signature;
pub use values::{element_type, value_type};
