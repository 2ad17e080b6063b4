/// A predicate near another one, and how far its importance falls without the other one's runs, in millionths.
#[derive(Clone, Copy, Debug, PartialEq, Eq)]
pub struct Neighbour {
    pub predicate: u32,
    pub fall: u64,
}
