//! Cases of C texts, row by row: the tokens, the tree, the types and the sites of a text, and what its programs do.
//!
//! A file of cases (`cases_rows` says its form) has rows of texts. `text T` begins a text, with the bytes T as they stand, or with a block below it. The lines
//! below are of this text, up to the next:
//!
//! - `times N T`: the text goes on with N times T, in which `#` is the number of the copy, from 1.
//! - `within NAME`: each `@` of the shared text NAME stands for the text. C has no such character (C99 5.2.1).
//! - `input V`, `turns N`: what a run is given, else nothing and 1,000 turns. These and `within` may also stand before the first text, for all of a row.
//! - `ASK: V`, or `ASK:` with a block below: what is asked, and what must come of it. `ask.rt` says what may be asked.
//!
//! In V `\xHH` is a byte.
#![tactic(auto)]

mod answers;
mod ask;
mod form;
mod lexed;
mod parts;
mod plans;
mod read;
mod row;
mod runs;
mod sited;
mod typed;

pub use row::TextRows;
