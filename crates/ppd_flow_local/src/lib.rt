//! The searches for origins within one process: the last write of a local cell, the control parent, what a loop
//! left and what a function returned, by replays of as few intervals as they need.
#![tactic(auto)]

mod control;
mod edges;
mod leaf;
mod local;
mod scan;
mod search;
mod testing;

pub use ppd_flow_edges::{asked_items, control_edge, push_read, push_rest};
pub use scan::LocalCell;
pub use search::{Place, Search};
