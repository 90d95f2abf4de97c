//! The graph of a run's synchronizations, from its logs: which internal edge is before which, what each edge accesses, and
//! why some logs have no such graph. And where the values and the control of an item came from, found from what the replays
//! of log intervals give: definitions alone, and the types of their values.
#![tactic(auto)]

mod build;
mod by_number;
mod greatest;
mod last_test;
mod laws;
mod leaf_call;
mod missing;
mod paired;
mod partners;
mod placed;
mod rounds;
mod sets;
mod sync_graph;
mod times;
mod walked;
mod writer;

pub use build::{graph, graph_in};
pub use last_test::LastTest;
pub use laws::{partners_are_found, rounds_are_cycles, times_order_edges};
pub use leaf_call::LeafCall;
pub use paired::Paired;
pub use ppd_model::{At, BadSync, EdgeId, NodeId};
pub use sets::EdgeSets;
pub use sync_graph::SyncGraph;
pub use walked::Walked;
pub use writer::Writer;
