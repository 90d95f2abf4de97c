//! The events of a process's intervals, joined, and what each of them writes: local cells, by tags, and shared ones.
#![tactic(auto)]

mod events;
mod marks;
mod tags;

pub use events::events_of;
pub use marks::{key, mark_if};
pub use tags::{At, tag_kind, tag_writes};
