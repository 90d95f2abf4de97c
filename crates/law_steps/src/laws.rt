//! Laws of what the other calls give: each is the contract of a function that does nothing.

pub mod agreement;
pub mod beside;
pub mod coming;
pub mod edges;
pub mod in_force;
pub mod open_blocks;
pub mod skips;
pub mod spans;
pub mod steps;
pub mod theorem;
