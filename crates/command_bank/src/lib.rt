//! What the command `bank` does: it makes a bank.
#![tactic(auto)]

mod command;

pub use command::make_bank;
