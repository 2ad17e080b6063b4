//! The types of the language, and what its operators, calls and assignments take and give.
#![tactic(auto)]

mod assigning;
mod conversions;
mod ctype;
mod fault;
mod function;
mod laws;
mod layout;
mod library;
mod operand;
mod operators;
mod selecting;

pub use assigning::{assignable, assigned, fits_parameters};
pub use conversions::{
    constant_of, decayed, enclosed, is_arithmetic, is_array, is_pointer, is_scalar,
    is_scalar_value, is_struct, is_void, null_of, place_of, string_of, value_of,
};
pub use ctype::{CType, Type, pointer_to, same_type};
pub use fault::FaultKind;
pub use function::{FunctionType, called, same_function};
pub use laws::{numbers_keep_their_kind, same_type_is_equality};
pub use layout::{Member, StructType, cells_of, is_complete, is_object, with_member};
pub use library::{Library, library_called, library_named, printed};
pub use operand::{Looked, Operand};
pub use operators::{cast_to, combined, compounded, joined, measured, signed, stepped, turned};
pub use selecting::{
    addressed, chosen, indexed, member_behind, member_named, member_of, pointed, sequenced,
};
