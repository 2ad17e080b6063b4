//! The rows of the machine: the nodes that only touch data, and the data that they touch.
#![tactic(auto)]

mod each_row;
mod first;
mod locals;
mod now;
mod operands;
mod output;
mod printing;
mod quick;
mod rows;
mod stop;
mod texts;

pub use each_row::row;
pub use first::make_first;
pub use locals::Locals;
pub use now::Now;
pub use operands::Operands;
pub use output::Output;
pub use quick::quick_math;
pub use rows::{byte_of, quick_behind, quick_move};
pub use stop::Stop;
