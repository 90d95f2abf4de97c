//! Flowback: where each value that an item read, was left or was given came from, what let it run, and where a shared
//! cell got its last value.
#![tactic(auto)]

mod far;
mod item;
mod laws;
mod reads;
mod value;

pub use far::far_processes;
pub use item::{edges, edges_by_tables, edges_from};
pub use laws::answers_are_of_runs;
pub use ppd_flow_past::{FlowError, KeptReplays, Past, interval_items};
pub use ppd_flow_shared::{
    BlockTables, ItemPlace, KeptTables, LastEdge, TabledItems, Tables, last_edge,
};
pub use ppd_model::{EdgeKind, FlowEdge, Origin};
pub use value::{block_tables, last, last_from};
