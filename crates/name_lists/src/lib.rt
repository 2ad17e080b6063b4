//! Lists of names of files, a name a line, each of which is the input of one of many runs.
#![tactic(auto)]

mod draft;
mod laws;
mod reading;

pub use laws::{one_list, one_state};
pub use reading::{ListError, read_list};
