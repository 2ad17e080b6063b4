//! What C99 asks of names, expressions and statements, said of every text whose types have no fault.
#![tactic(auto)]

mod laws;

pub use laws::accepted_texts_fit;
