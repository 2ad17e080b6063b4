//! What the definitions of recounts, leaders and eliminations (PLDI 2005) say, computed plainly: each number anew, by going through all runs and their
//! entries, with nothing kept from one round to the next. It is slow, and tests compare the quick `elimination` with it, so it calls none of its code.
#![tactic(auto)]

mod collected;
mod counting;
mod entries;
mod leading;
mod listing;

pub use collected::{branches_of, plain_elimination, runs_of};
pub use counting::{failing_runs, recount};
pub use entries::predicates_in;
pub use leading::leader;
pub use listing::{eliminate, step};
