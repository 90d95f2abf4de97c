//! Tables of the items of one interval: the last write of a local cell, the latest test of a statement and the call
//! whose activation goes on without an interval of its own, before any place and without going over the items.
//! A table takes one pass over the items, and a look-up a search by halves among the changes of one cell or of one
//! statement.
#![tactic(auto)]

mod build;
mod calls;
mod leaf;
mod point;
mod row;
mod rows;
mod table;

pub use calls::Code;
pub use leaf::{frame_in, leaf_after};
pub use table::{LastWrite, LocalTable};
