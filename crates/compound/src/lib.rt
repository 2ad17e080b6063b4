//! Compound predicates: the best conjunction of two predicates over the runs of a collection, among all pairs of a thousand candidates. A bound of the
//! importance of a pair spares the counting of most of them.
#![tactic(auto)]

mod chosen;
mod finding;
mod laws;
mod listing;
mod pair_bound;
mod places;
mod scanning;
mod text;

pub use chosen::{Chosen, PairResult};
pub use finding::best_pair;
pub use laws::{no_importance_is_above_its_bound, pairs_add_up};
pub use pair_bound::bound;
pub use text::pairs_text;
