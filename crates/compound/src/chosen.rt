use fractions::Tally;

/// The best pair: its two predicates, its numbers, and how many runs fail.
#[derive(Clone, Copy, Debug, PartialEq, Eq)]
pub struct Chosen {
    pub left: u32,
    pub right: u32,
    pub tally: Tally,
    pub failing: u32,
}

/// How many pairs of candidates there are, how many were counted and how many skipped, and the best pair, if one passes.
#[derive(Clone, Copy, Debug, PartialEq, Eq)]
pub struct PairResult {
    pub pairs: u64,
    pub counted: u64,
    pub skipped: u64,
    pub best: Option<Chosen>,
}
