//! Tables by which a search looks up in place of going over entries or items: the internal edges of a process and the
//! places of an interval, the edges that write each shared cell, and the items of intervals that are at hand.
#![tactic(auto)]

mod block;
mod by_cell;
mod counts;
mod edge_build;
mod edge_table;
mod greatest;
mod halves;
mod innermost;
mod kept;
mod laws;
mod listing;
mod lookups;
mod marks;
mod numbers;
mod place_build;
mod place_table;
mod process;
mod spans;
mod tables;

pub use block::BlockTables;
pub use by_cell::{WritingEdges, writing_edges};
pub use edge_table::EdgeTable;
pub use kept::KeptTables;
pub use laws::latest_is_greatest;
pub use lookups::{edge_at, end_interval, greatest_before, place_of, stop_before, sync_item};
pub use place_table::PlaceTable;
pub use ppd_flow_past::{
    FlowError, Items, Past, block_of, count_of, end_interval as sought_end_interval, ending,
    entries_of, greatest_writing, interval_items, number, outer_of,
};
pub use process::ProcessTables;
pub use tables::{TabledItems, Tables};
