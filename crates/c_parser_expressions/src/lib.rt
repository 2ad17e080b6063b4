//! The parser's reader over tokens, and what it reads of types and expressions.
#![tactic(auto)]

mod cursor;
mod expression;
mod signs;
mod stop;
mod strings;
mod types;

pub use cursor::Reader;
pub use expression::{assigned, closed};
pub use stop::Stop;
pub use types::{base, stars, type_name};
