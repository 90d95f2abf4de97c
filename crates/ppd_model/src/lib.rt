//! The definitions of a run: its schedule and trace, its synchronizations and races, its logs, their intervals and the
//! flowback edges, and the replay of one log interval from its own log; and the types of their values, among them lists
//! most of which are empty.
#![tactic(auto)]

mod bad_log;
mod bad_sync;
mod block_trace;
mod boxed;
mod closed;
mod entry;
mod flow;
mod flow_error;
mod graph;
mod laws;
mod piece;
mod replay_laws;
mod state;
mod trace;
mod tracing;
mod units;
mod values;
mod wanted;

pub use bad_log::BadLog;
pub use bad_sync::BadSync;
pub use block_trace::{BlockTrace, EmulError};
pub use boxed::{Boxed, BoxedCells, BoxedNums};
pub use closed::{Closed, ProcEnd};
pub use entry::{At, Entry, Logs, same_kind};
pub use flow::{EdgeKind, FlowEdge, Item, Origin};
pub use flow_error::FlowError;
pub use graph::{EdgeId, NodeId, Race, RaceKind};
pub use laws::{
    completions_follow_offers, counts_are_balanced, ends_are_told, extents_match,
    happened_before_goes_forward, happened_before_is_tested, intervals_are_of_steps,
    items_are_whole, local_tags_are_last_writes, logs_grow, logs_record_runs, no_race_means_order,
    objects_stay, parents_are_latest_tests, processes_follow_their_steps, schedules_are_bounded,
    schedules_go_by_prefixes, shared_reads_are_found, steps_change_their_own,
    steps_cost_what_they_write, stories_grow, stories_tell_all, synchronizations_are_counted,
    tags_are_last_writes, traces_are_of_runs,
};
pub use piece::Piece;
pub use ppd_ast::SyncKind;
pub use ppd_sem::{Status, capacity_of};
pub use replay_laws::{
    failures_differ, replays_are_within_budget, replays_count_their_steps, replays_end_by_turns,
};
pub use state::{Channel, Counts, Logging};
pub use trace::{DriveError, EventId, Trace, TracedEvent};
pub use tracing::{Activation, Story, Taken, Test, Tracing};
pub use units::{unit_cells, unit_started};
pub use values::{closed_block, value_at, values_at};
pub use wanted::{Found, Wanted};
