//! The runs of a process's bodies, as its events are followed: which event last wrote each local cell, what the latest
//! test of each statement was, and the control parent of the next event. Each call counts its steps.
#![tactic(auto)]

mod by_number;
mod control;
mod runs;
mod tags;

pub use by_number::ByNumber;
pub use control::{add_test, parent_of};
pub use runs::{Run, begun_run, called_run, push_copies, tag_in, top_tags};
pub use tags::{return_tag, set_tag};
