//! What a run by a schedule that is handed in would write.
#![tactic(auto)]

mod following;
mod text_sink;

pub use following::{FollowError, follow};
