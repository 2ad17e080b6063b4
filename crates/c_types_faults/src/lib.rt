//! Type checking against the rules of C: a text is refused at the first token at which it breaks a rule of C or of the dialect. An accepted text
//! keeps them all, and what checking noted of it says where a variable is in scope, which member lies where, and which function a call is of.
#![tactic(auto)]

mod laws;
mod notes;

pub use laws::{
    a_part_has_one_first_fault, a_refused_expression_breaks_a_rule, a_refused_text_breaks_a_rule,
    a_text_has_one_first_fault, an_accepted_text_keeps_the_rules, an_operand_breaks_no_rule,
};
pub use notes::{
    calls_have_functions, expressions_are_events, members_have_offsets, scopes_are_blocks,
};
