//! The words after a command: the options and positionals among them, and what the values of options say; and the words of each command.
#![tactic(auto)]

mod fault;
mod given;
mod numbers;
mod policies;
mod schemes;
mod shares;
mod word;
mod words;

pub use fault::Fault;
pub use given::{Choice, Given, cut};
pub use numbers::{Bounds, number_in, number_or};
pub use policies::policy_or;
pub use schemes::{Mode, mode_in, schemes_or};
pub use shares::{share_in, share_or};
pub use word::Word;
pub use words::{
    BankWords, BugsWords, CardsWords, CollectWords, LinesWords, PairsWords, RankWords, RunWords,
    RunsWords, SessionWords, StudyWords, TransformWords, WidenWords,
};
