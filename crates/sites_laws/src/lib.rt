//! The site table in the words of the abstract syntax: which sites a text has.
#![tactic(auto)]

mod laws;

pub use laws::{
    branches_are_those_of_words, partners_are_in_scope, sites_are_where_the_tree_says,
    spots_are_those_of_constructs,
};
