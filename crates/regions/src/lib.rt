//! The regions of a program for sampling: which functions matter to it, and where the regions and the basic blocks of a function begin
//! (PLDI 2003 section 2).
#![tactic(auto)]

mod block_starts;
mod callers;
mod flags;
mod reach;
mod region_starts;

pub use block_starts::blocks;
pub use flags::is_in;
pub use reach::weighty;
pub use region_starts::headers;
