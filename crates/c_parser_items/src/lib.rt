//! What the parser reads of one item: a struct, a function or a declaration of globals.
#![tactic(auto)]

mod items;

pub use items::item;
