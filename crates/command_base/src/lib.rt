//! What every command does with what is outside: its files, its text on out, and why it stops.
#![tactic(auto)]

mod devices;
mod done;
mod fault;
mod limits;
mod work;

pub use devices::{put, read_file, write_file};
pub use done::Done;
pub use fault::Fault;
pub use limits::{PROGRAM_LIMIT, TEXT_LIMIT};
pub use work::{Made, Work, do_work};
