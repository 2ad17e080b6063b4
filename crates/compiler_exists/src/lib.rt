//! There is a program that each accepted text is compiled to: nodes that do what each part of it asks for, a program of a checked text with any table
//! of its sites, a cloned form of each program that may be cloned, and a text of its own with the tokens that it lexes to.
#![tactic(auto)]

mod cloned;
mod compiled;
mod lowered;
mod texts;

pub use cloned::each_program_has_a_cloned_form;
pub use compiled::{each_accepted_text_has_a_program, texts_have_the_tokens_they_lex_to};
pub use lowered::{
    each_body_has_nodes, each_expression_has_nodes, each_source_has_a_program,
    each_statement_has_nodes, nodes_stand_where_they_are_put,
};
pub use texts::each_ready_text_has_a_program;
