//! The functions that a text defines, by their numbers: what counts, sites and messages name them by.
#![tactic(auto)]
