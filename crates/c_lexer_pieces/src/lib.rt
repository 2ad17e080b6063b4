//! The pieces of a text: what stands at the front of what is left of it, and what follows.
#![tactic(auto)]

mod bytes;
mod comments;
mod constants;
mod directives;
mod escapes;
mod front;
mod pieces;
mod spellings;

pub use bytes::{Class, is_separator};
pub use comments::may_close;
pub use front::{Defined, constant_of, piece_at};
pub use pieces::Found;
pub use spellings::{sign_of, word_of};
