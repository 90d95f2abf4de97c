//! Where a shared cell was written and where a synchronization's pair is: the walk back over an internal edge, and
//! from the end of the greatest edge that writes the cell, by replays.
#![tactic(auto)]

mod edge_end;
mod event;
mod inside;
mod last;
mod outward;
mod pairs;
mod search;
mod shared;
mod written;

pub use last::{LastEdge, last_edge, last_write_from};
pub use pairs::{ItemPlace, pair_of, pair_origin};
pub use ppd_flow_tables::{
    BlockTables, EdgeTable, KeptTables, Past, TabledItems, Tables, WritingEdges, writing_edges,
};
pub use search::CellSearch;
pub use shared::last_write;
