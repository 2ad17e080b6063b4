//! Watchers of a run: each is told every observation, and has a line to say of them at the end.
#![tactic(auto)]

mod first_seen;
mod hottest;
mod last_seen;
mod log;
mod sites;

pub use first_seen::{FirstSeen, first_sites_in_order};
pub use hottest::{Hottest, hottest_leads};
pub use last_seen::LastSeen;
pub use probe_base::{Probe, push_lines, tell_all};
