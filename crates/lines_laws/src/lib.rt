//! Laws: a text of lines is spelled exactly where it goes wrong at no line, for reports, collections, lists of edits, banks and lists of names.
#![tactic(auto)]

mod laws;

pub use laws::{
    banks_are_lines, collections_are_lines, edits_are_lines, lists_are_lines, reports_are_lines,
};
