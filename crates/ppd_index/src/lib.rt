//! The index of logs: the intervals of each process, and the log of each interval, lent.
#![tactic(auto)]

mod build;
mod interval;
mod interval_log;
mod log_index;
mod row;
mod standing;
mod table;

pub use build::{index, index_in};
pub use interval::Interval;
pub use interval_log::IntervalLog;
pub use log_index::LogIndex;
pub use ppd_model::{At, BadLog, Item, Piece, unit_cells};
