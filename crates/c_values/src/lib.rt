//! The arithmetic of the language's scalars: what an operation, a conversion, a truth and a sign are, and where one traps.
#![tactic(auto)]

mod arithmetic;
mod binary;
mod bits;
mod laws;
mod range;
mod relation;
mod scalars;
mod shifts;
mod unary;

pub use binary::apply_binary;
pub use laws::{bit_laws, conversion_laws, division_laws, result_laws, shift_laws, trap_laws};
pub use relation::{Relation, relate};
pub use scalars::{convert, sign, truth};
pub use unary::apply_unary;
