//! Collections of reports: a map from runs to reports, which grows one report at a time.
#![tactic(auto)]

mod answers;
mod collection;
mod draft;
mod laws;
mod reading;
mod run_text;
mod sites;

pub use answers::{AddFault, Added, Merged};
pub use collection::{Bundle, Collection, Held, write_collection};
pub use laws::{
    collections_are_maps, groups_do_not_matter, one_collection, one_run_text, one_state,
    order_does_not_matter, reports_are_taken_whole, written_collection,
};
pub use reading::{CollectionError, read_collection};
pub use run_text::{RunText, read_run};
pub use sites::branches_of;
