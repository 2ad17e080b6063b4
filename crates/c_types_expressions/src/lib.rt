//! The first part of the check of types: the names in scope, what is known at a point of a text, and the walk through its
//! expressions.
#![tactic(auto)]

mod expr_walk;
mod index;
mod names;
mod operators;
mod table;
mod walk;

pub use expr_walk::{base_type, string_cells, walk_expr, walk_exprs, walk_whole, with_stars};
pub use names::{Meaning, Names, is_reserved};
pub use operators::{binary_of, compound_of};
pub use walk::{
    Definition, FunctionEntry, Parameter, Stop, Variable, VariableEntry, Walk, add_variable,
    close_scope, next_number, open_scope, unless,
};
