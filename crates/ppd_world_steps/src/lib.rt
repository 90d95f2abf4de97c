//! What a step finds and what it leaves: the semaphores and channels of the run, the entries that it adds to the log of
//! its process, and the cells that it accesses.
#![tactic(auto)]

mod appending;
mod code;
mod entries;
mod note;
mod objects;

pub use appending::{
    push_closed, push_end, push_opened, push_sync, push_unit, status_of, unit_values,
};
pub use code::Code;
pub use entries::entries_of;
pub use note::{Note, apply, note_of};
pub use objects::{can_complete, can_receive, can_send, can_take, next_value, number_of};
