//! What every crate of the tool speaks of: values and operations, traps, outcomes, names, identities.
#![tactic(auto)]

mod decimal;
mod file_store;
mod format;
mod identity;
mod lines;
mod mem_sink;
mod mem_store;
mod memory;
mod name;
mod numbers;
mod objects;
mod observation;
mod operators;
mod outcome;
mod policy;
mod refusal;
mod scalar;
mod seq;
mod sink;
mod stack;
mod std_sink;
mod store;
mod text;
mod trap;

pub use decimal::{push_decimal, read_decimal, read_signed};
pub use file_store::FileStore;
pub use format::count_conversions;
pub use identity::{ProgramId, id_text, read_id};
pub use lines::{
    LineError, LineReader, TextError, longest_good_prefix, no_bad_line, one_bad_line, read_lines,
};
pub use mem_sink::MemSink;
pub use mem_store::{File, MemStore};
pub use memory::Memory;
pub use name::{Name, begins_name, is_letter, is_name, is_name_byte};
pub use numbers::{one_number, read_number, two_numbers};
pub use objects::allocation_laws;
pub use observation::{Observation, Seen};
pub use operators::{Binary, Order, Unary};
pub use outcome::{Counts, Outcome, Work};
pub use policy::Policy;
pub use refusal::Refusal;
pub use scalar::{Class, Kind, Scalar, Want};
pub use seq::Seq;
pub use sink::{Sink, SinkError};
pub use stack::Stack;
pub use std_sink::StdSink;
pub use store::{Store, StoreError};
pub use text::{Fields, line_end};
pub use trap::Trap;
