//! What operators and calls do with their operands, as nodes, and what is known of each before it is put.
#![tactic(auto)]

mod forks;
mod giving;
mod library;
mod links;
mod printing;
mod sole;
mod spots;
mod voids;

pub use forks::{forks_at, is_short, no_before, yes_before};
pub use giving::{Giving, giving_of, is_refused, put_given};
pub use library::{fits, number_of_text, passed, put_acts, put_unfit, wanted_by};
pub use links::{begins_null, put_shortcut, type_before};
pub use printing::{Wanted, type_wanted};
pub use sole::put_sole;
pub use spots::{is_used, place_before, put_settled, put_stepped_place, type_behind};
pub use voids::{is_taken, is_void};
