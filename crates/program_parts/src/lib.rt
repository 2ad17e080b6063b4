//! Programs that look at a part of the sites alone.
#![tactic(auto)]

mod keep;
mod laws;
mod nodes;
mod part;
mod sites;
mod table;

pub use keep::keep_part;
pub use laws::{counts_of_parts, each_site_once, each_visit_once, parts_have_their_sites};
pub use table::is_part;
