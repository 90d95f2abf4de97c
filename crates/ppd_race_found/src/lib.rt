//! The races of a process's edges with those of a later process, found cell by cell: in the list of those that access a
//! cell, the edges that are neither before an edge nor after it stand together.
#![tactic(auto)]

mod apart;
mod busy;
mod by_cell;
mod found;
mod lists;

pub use busy::{Accessor, Against, Busy};
pub use by_cell::ByCell;
pub use found::{Found, add_row};
pub use lists::{Lists, no_lists, push_at};
pub use ppd_graph::{EdgeSets, SyncGraph};
