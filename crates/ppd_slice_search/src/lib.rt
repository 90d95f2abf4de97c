//! What slices are, and the search by levels that finds each item once with the least depth, with a replay of each
//! interval at most.
#![tactic(auto)]

mod items;
mod laws;
mod reached;
mod search;

pub use items::has_item;
pub use laws::{levels_are_reach, reaches_are_slices, slices_are_one};
pub use reached::{ItemAt, Reached};
pub use search::Search;
