use crate::trap::Trap;

/// How a run went: it ended with a status, it trapped, or it was cut for want of turns or of room on its output.
#[derive(Clone, Copy, Debug, PartialEq, Eq)]
pub enum Outcome {
    Ended { status: i32 },
    Trapped { trap: Trap },
    CutTurns,
    CutOutput,
}

/// The walk of a run through its copies: how often a `choose` went fast, how often slow, and how often a `test` ran.
#[derive(Clone, Copy, Debug, PartialEq, Eq)]
pub struct Work {
    pub fast: u64,
    pub slow: u64,
    pub tests: u64,
}

/// The counters of a site, one for each truth. A branch has none for the third.
#[derive(Clone, Copy, Debug, PartialEq, Eq)]
pub struct Counts {
    pub first: u64,
    pub second: u64,
    pub third: u64,
}
