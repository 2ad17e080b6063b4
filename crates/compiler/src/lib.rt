//! From the bytes of a text to its program by a plan: which texts are accepted, what they are compiled to, and the error for each other text.
#![tactic(auto)]

mod compile_error;
mod front;
mod laws;
mod pipeline;
mod plan;
mod text_error;

pub use compile_error::CompileError;
pub use front::accept;
pub use laws::{
    accepted_texts_never_fault, one_accepted_text, plans_agree, refused_texts_are_not_accepted,
    refused_texts_are_not_compiled, sites_of_accepted_texts_stand, tokens_of_accepted_texts_fit,
};
pub use pipeline::compile;
pub use plan::Plan;
pub use text_error::TextError;
