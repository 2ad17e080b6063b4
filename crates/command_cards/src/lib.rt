//! What the command `cards` does: it deals a card of each predicate that a ranking lists, with its runs and the predicates near it.
#![tactic(auto)]

mod command;

pub use command::CardsCall;
