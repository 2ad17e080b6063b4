//! Programs for texts: what a graph of nodes has to do so that it does what a text means.
#![tactic(auto)]

mod laws;

pub use laws::{graph_does_nothing_else, graph_means_text};
