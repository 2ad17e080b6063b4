//! What lowering looks up in a syntax tree and a site table, by token: operators, places, strings, sites, bodies and named types.
#![tactic(auto)]

mod bodies;
mod named;
mod operators;
mod places;
mod site_index;
mod string_walk;
mod strings;
mod texts;
mod trees;

pub use bodies::{body_numbered, body_places};
pub use named::named_cells;
pub use operators::{
    Assignment, Joint, assignment_by, has_value, joint_by, one_kind, operand_type, step_of,
};
pub use places::{at_token, behind_token, first_at};
pub use site_index::{SiteLists, site_lists};
pub use texts::{TextLists, text_lists};
pub use trees::{
    ends_as_place, is_null_as, is_null_beside, is_null_constant, is_place, link_token,
    postfix_token, token_of,
};
