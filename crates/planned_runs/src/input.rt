use cbi_base::Seq;
use countdown_bank::Bank;

/// What a run is made on.
#[derive(Debug, Drop)]
pub struct RunInput {
    /// Which visits of sites are sampled.
    pub bank: Bank,
    pub input: Seq<u8>,
    /// What the output is to equal, where something is said.
    pub expect: Option<Seq<u8>>,
}
