//! Program files: the text of a program, read exactly, and the identity of a text.
#![tactic(auto)]

mod draft;
mod error;
mod next;
mod read;
mod scope;

pub use error::ProgramError;
pub use program_writer::{program_id, write_program, written_program};
pub use read::{one_program, one_wrong_line, read_program};
