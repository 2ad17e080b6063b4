use cbi_base::Policy;

/// What a study is to run.
#[derive(Clone, Copy, Debug, PartialEq, Eq)]
pub struct StudyPlan {
    /// How many runs, from 1 to 100,000.
    pub runs: u32,
    /// The seed of each run's generator; the stream is the run's number.
    pub seed: u64,
    /// From 1 to 65,536: the rate at which each bank is made.
    pub rate: u32,
    /// The bound of turns of each run, at most 100,000,000.
    pub turns: u32,
    /// What the ranking does after each leader.
    pub policy: Policy,
}
