use crate::label::CopyLabel;

/// The labels of a sampled function in the order of its nodes, and for each node of the original one the places of the choice before it, of
/// its slow copy and of its fast copy.
#[derive(Drop)]
pub struct Layout {
    pub labels: Vec<CopyLabel>,
    pub gates: Vec<u32>,
    pub slow: Vec<u32>,
    pub fast: Vec<u32>,
}
