//! What a session prints: the edits of a list are done one after another, and each ranking that is asked for is made of what is held then. It is one
//! text, and additions alone print what their collection does.
#![tactic(auto)]

mod fault;
mod laws;
mod replaying;

pub use fault::EditFault;
pub use laws::{additions_are_ranked, additions_print_their_map, one_text};
pub use replaying::replay;
