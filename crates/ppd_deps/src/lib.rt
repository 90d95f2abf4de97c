//! Static edges: the statements from which a value that a statement reads, or its control, may come.
#![tactic(auto)]

mod adding;
mod edges;
mod graph;
mod laws;
mod locals;
mod tables;
mod vars;

pub use edges::{DepGraph, StaticEdge};
pub use graph::static_graph;
pub use laws::no_edge_is_invented;
