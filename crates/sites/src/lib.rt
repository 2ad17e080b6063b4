//! The site table of a checked tree: the places at which instrumentation observes a run of its program.
#![tactic(auto)]

mod constants;
mod ground;
mod laws;
mod noted;
mod partners;
mod schemes;
mod spots;
mod statements;
mod table;

pub use laws::{schemes_choose_sites, sites_have_functions, sites_rise};
pub use schemes::SiteError;
pub use table::site_table;
