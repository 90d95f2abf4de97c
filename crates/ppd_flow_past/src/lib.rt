//! What is kept of a run: a past, with the replay of each of its intervals, and its internal edges: that of a place,
//! where one ends, and the greatest that writes a cell.
#![tactic(auto)]

mod ends;
mod greatest;
mod intervals;
mod items;
mod kept_replays;
mod laws;
mod past;
mod places;
mod replaying;
mod syncs;

pub use ends::{end_interval, ending, is_sync_item, sync_item};
pub use greatest::{greatest_before, greatest_writing};
pub use intervals::{block_of, count_of, outer_of};
pub use items::Items;
pub use kept_replays::KeptReplays;
pub use laws::replays_are_seen;
pub use past::Past;
pub use places::edge_at;
pub use ppd_model::FlowError;
pub use replaying::{interval_items, number, replayed};
pub use syncs::entries_of;
