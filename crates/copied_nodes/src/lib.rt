//! The nodes of a function's fast and slow copies: each from its label, and from where the copies of each node stand.
#![tactic(auto)]

mod label;
mod layout;
mod nodes;
mod outlets;

pub use label::{CopyLabel, Side};
pub use layout::Layout;
pub use nodes::{Source, at, node_for};
pub use outlets::{is_outlet, pays};
