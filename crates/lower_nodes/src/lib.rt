//! The parts of a graph of nodes: each is put before where control goes on behind it, and does what the text has there.
#![tactic(auto)]

mod arms;
mod changes;
mod graph;
mod leaves;
mod marks;
mod numbering;
mod operators;
mod purpose;
mod values;

pub use arms::{put_arm, put_flagged};
pub use changes::{put_changed, put_converted, put_stepped, put_stepped_as};
pub use graph::Graph;
pub use leaves::{put_constant, put_name, put_null, put_size, put_text};
pub use marks::{put_assigned, put_assigned_behind, put_decided, put_mark, put_marks};
pub use numbering::finish;
pub use operators::{put_member, put_operation, put_variable};
pub use purpose::{Purpose, put_pointed, put_taken, put_taken_place, put_taken_through};
pub use values::{put_conversion, put_conversion_below, put_handed, put_load, put_stuck};
