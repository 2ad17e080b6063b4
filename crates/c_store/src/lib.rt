//! The objects of a run: cells that live and die, and the pointers into them.
#![tactic(auto)]

mod block;
mod laws;
mod objects;
mod places;
mod pointers;
mod table;
mod word;

pub use laws::store_laws;
pub use objects::{Made, Objects};
pub use word::Word;
