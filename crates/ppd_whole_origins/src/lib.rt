//! The intervals of a past, by process and number, and the items of one, which is replayed once; and what an event of a
//! past came from in other edges and other processes: the writers of its reads, and its pair.
#![tactic(auto)]

mod items;
mod jobs;
mod linked_past;
mod point;
mod whole_error;
mod writers;

pub use items::items_in;
pub use jobs::{Job, jobs_of};
pub use linked_past::LinkedPast;
pub use point::Point;
pub use ppd_flow_shared::writing_edges;
pub use whole_error::WholeError;
pub use writers::{pair_of, writer_of};
