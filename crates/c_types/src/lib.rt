//! Checks the types of a tree: a walk that meets the first fault, or notes what each construct is.
#![tactic(auto)]

mod answers;
mod checked;
mod checking;
mod laws;

pub use checked::{Checked, TypeFault};
pub use checking::check;
pub use laws::{
    expressions_have_types, functions_are_numbered_in_order, inner_names_hide,
    names_have_variables, sizes_are_sums, variables_are_numbered_in_order,
};
