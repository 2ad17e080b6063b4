//! What the parser reads of declarations: declarators with their bounds, initialisers, declared variables, and the parts of items: lines of members, and
//! parameters.
#![tactic(auto)]

mod declarations;
mod members;
mod parameters;

pub use declarations::{bound, bounds, declaration, declarator, initialised, more_starts};
pub use members::member_lines;
pub use parameters::params;
