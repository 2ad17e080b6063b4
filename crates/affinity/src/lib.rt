//! Affinity (PLDI 2005): the predicates whose importance falls most when the runs are taken away in which another one was true, and a card of each
//! listed predicate with its runs and those near it.
#![tactic(auto)]

mod comparing;
mod dealing;
mod first;
mod laws;
mod listing;
mod nearby;
mod neighbour;
mod remaining;
mod text;

pub use dealing::{Card, cards};
pub use laws::near_lists_are_one;
pub use nearby::near;
pub use neighbour::Neighbour;
