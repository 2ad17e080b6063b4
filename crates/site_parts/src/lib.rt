//! Reports of a part's program as reports of the whole program. Passes on what makes the parts, `program_parts`.
#![tactic(auto)]

mod bundles;
mod laws;

pub use bundles::widen;
pub use laws::{
    entries_of_parts, farms_count_the_whole, fitting_reports_may_widen, widened_reports_fit,
};
pub use program_parts::{
    counts_of_parts, each_site_once, each_visit_once, is_part, keep_part, parts_have_their_sites,
};
