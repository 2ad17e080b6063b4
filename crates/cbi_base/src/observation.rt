/// What a visit of a site saw: the first, the second or the third truth, or none of them. A branch has no third.
#[derive(Clone, Copy, Debug, PartialEq, Eq)]
pub enum Seen {
    First,
    Second,
    Third,
    Nothing,
}

/// A visit that was looked at: the number of its site, and what it saw.
#[derive(Clone, Copy, Debug, PartialEq, Eq)]
pub struct Observation {
    pub site: u32,
    pub seen: Seen,
}
