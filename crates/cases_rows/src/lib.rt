//! Rows of files of cases: their lines, what they give a call, and what must come of it.
//!
//! A file of cases has lines. `# ..` is a comment and an empty line counts for nothing. Before the first row `text NAME` names bytes that rows share, in a
//! block below it. A row is `case NAME` and what follows to the next; the program says which heads its lines have.
//! A block's lines are indented by four blanks, and each stands for its text and a newline. A backslash at a line's end: no newline. `\xHH`: a byte, so
//! `\x5C` a backslash, and an empty line of a block is `    \x0A\`. `\*N ` at a line's begin: the line's bytes N times.
//!
//! A program of cases is `look` over its kind of `Rows`, or `look_by_file` over `Files` of several kinds.
#![tactic(auto)]

mod bytes;
mod expected;
mod form;
mod given;
mod page;
mod rows;

pub use bytes::{INDENT, block, push_shown, push_text};
pub use expected::{Answers, expect, expect_files, expect_rest, expect_status, expect_values};
pub use form::{
    Head, Place, Rest, are_numbers, bad_line, has_any, has_head, has_line, is_shared, rest_of,
};
pub use given::{keep, numbers_in, numbers_of, piece_of, store_of, words_of};
pub use page::Page;
pub use rows::{Files, Rows, Tally, look, look_at_file, look_by_file, print_unread};
