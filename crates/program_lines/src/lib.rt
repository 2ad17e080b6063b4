//! The lines of a program file: what each is read as, and the lists of texts, globals and heads that they make.
#![tactic(auto)]

mod cells;
mod head_line;
mod known;
mod lists;
mod node_line;
mod operations;
mod rows;
mod site_line;
mod words;

pub use cells::{read_global, same_cell};
pub use head_line::{Head, read_head};
pub use lists::{Globals, Heads, Texts};
pub use node_line::read_node;
pub use rows::{read_count, read_locals, read_text};
pub use site_line::read_site;
