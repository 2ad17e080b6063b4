//! Banks of countdowns: the numbers that say which visits of sites are sampled (PLDI 2003 section 3).
#![tactic(auto)]

mod bank;
mod file;
mod later;
mod make;
mod number;

pub use bank::{Bank, BankNumbers, numbers_come_round};
pub use file::{BankError, one_bank, read_bank, write_bank};
pub use make::{later_bank, made_numbers_are_computed, make_bank, one_made_bank, ones_at_rate_one};
