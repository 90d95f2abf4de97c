//! The edges of an item as they are joined, and the items of an interval that has the item which is asked for.
#![tactic(auto)]

mod asked;
mod joined;

pub use asked::asked_items;
pub use joined::{control_edge, push_left, push_read, push_rest};
