//! What the search for flowback edges finds is what the run did: laws. Of shared reads and last values, with what it
//! replays for them, which is near to what is asked for and costs little; within a process, of control, of local cells, of
//! returned values and of loops; that a write that a search for a shared cell's origin misses is recorded, and no event of
//! its internal edge does it; and that the items of a run without a race, joined and linked, are its full trace.
#![tactic(auto)]

mod laws;

pub use laws::control::own_controls_are_found;
pub use laws::costs::{edges_cost_little, last_costs_little};
pub use laws::edges::{
    edges_are_found, last_writes_are_found, pairs_are_found, replays_are_within,
    shared_origins_are_found, walks_cost_little, walks_stay_near,
};
pub use laws::locals::{local_reads_are_found, returns_are_found};
pub use laws::loops::{all_local_reads_are_found, all_own_parts_are_found, loops_left_are_found};
pub use laws::missing::missing_writes_are_told;
pub use laws::places::leaf_tells;
pub use laws::whole::{joined_are_events, joined_trace_is_full, traces_are_followed};
