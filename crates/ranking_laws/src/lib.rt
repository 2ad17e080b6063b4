//! Determinism of what is computed from runs: there is exactly one elimination and ranking, one list of predicates near another one, one text of
//! cards, and one best pair.
#![tactic(auto)]

mod laws;

pub use laws::{one_best_pair, one_card_each, one_ranking};
