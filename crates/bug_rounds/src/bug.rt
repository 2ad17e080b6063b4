use association::Suspect;
use cbi_base::Seq;

/// What one round finds: its leader, the least number of the leader's own runs, the other places of the round, the best first, and how many failing runs were
/// live.
#[derive(Debug, Drop)]
pub struct Bug {
    pub leader: Suspect,
    pub first: u32,
    pub others: Seq<Suspect>,
    pub failing: u32,
}
