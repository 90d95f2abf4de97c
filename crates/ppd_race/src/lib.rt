//! The races of a run: pairs of internal edges of two processes, neither before the other, and a cell that both
//! access and one of them writes.
#![tactic(auto)]

mod by_cell;
mod laws;
mod rows;
mod search;
mod union;

pub use laws::{graph_races_are_of_logs, run_races_are_of_logs};
pub use ppd_model::{Race, RaceKind};
pub use ppd_race_found::{EdgeSets, SyncGraph};
pub use search::{races, races_in};
