//! What type checking notes of an accepted text is what its declarations say: the types of its expressions and variables, its functions' signatures,
//! and where a run begins.
#![tactic(auto)]

mod laws;

pub use laws::{
    facts_are_those_of_the_declarations, runs_begin_in_main, variables_have_declared_types,
};
