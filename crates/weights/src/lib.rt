//! The weights of nodes: how many sites a run can visit from a node on before its countdown is looked at again (PLDI 2003 section 2.2).
#![tactic(auto)]

mod laws;
mod node_weight;
mod table;

pub use laws::one_weight;
pub use node_weight::next_nodes;
pub use table::weights;
