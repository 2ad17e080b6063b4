//! What the definition of the predicates near another one says, computed plainly: all numbers anew by going through the runs and their entries, and one after
//! another the next of those that fall. It is slow, and rows compare the quick `affinity` with it, so it calls none of its code.
#![tactic(auto)]

mod choosing;
mod falling;
mod plain;

pub use plain::plain_near;
