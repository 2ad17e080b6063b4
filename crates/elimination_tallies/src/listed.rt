use fractions::Tally;

/// A leader, with its numbers over the runs that were left at its round, and how many of these failed.
#[derive(Clone, Copy, Debug, PartialEq, Eq)]
pub struct Listed {
    pub predicate: u32,
    pub tally: Tally,
    pub failing: u32,
}
