//! A lowered program is well-formed: its nodes name only what there is, they are at most 16 for each token of the text and one more for each site,
//! and its strings, its functions with their names and locals, and its globals with their initial values are the parts of one program.
#![tactic(auto)]

mod facts;
mod formats;
mod globals;
mod nodes;
mod parts;
mod programs;
mod room;

pub use facts::{
    bodies_own_their_sites, facts_of_an_accepted_text_fit, pointers_of_an_accepted_text_move,
};
pub use formats::formats_of_an_accepted_text_have_conversions;
pub use globals::globals_of_an_accepted_text_fit;
pub use nodes::{
    a_format_has_its_conversions, the_bodies_of_a_text_stand_among_its_tokens,
    the_nodes_of_a_body_fit,
};
pub use parts::{functions_of_an_accepted_text_fit, texts_of_an_accepted_text_fit};
pub use programs::{kept_texts_are_whole, parts_of_an_accepted_text_are_a_program};
pub use room::an_accepted_text_has_few_nodes;
