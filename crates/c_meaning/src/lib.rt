//! What a text of the language does: the definition that compiled programs are held to.
#![tactic(auto)]

mod conversion;
mod operation;
mod value_type;

pub use conversion::{Conversion, between, conversion_of};
pub use operation::{Operation, left_kind, operation_of, right_kind};
pub use value_type::{Called, ValueType, as_used, is_pointer};
