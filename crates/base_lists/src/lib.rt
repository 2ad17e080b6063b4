//! Lemmas that say something of the library's words alone, and that more than one crate needs.
#![tactic(auto)]
