//! The state of a replay, and what it takes from its log: the values that it begins with, those of a unit that starts,
//! and those that an interval inside left.
#![tactic(auto)]

mod beginning;
mod failing;
mod found;
mod in_force;
mod pieces;
mod replayer;
mod skipping;
mod units;

pub use beginning::begin;
pub use failing::fail;
pub use found::{copied, found_of};
pub use in_force::InForce;
pub use pieces::Pieces;
pub use ppd_index::{IntervalLog, LogIndex};
pub use replayer::{Code, Replayer, Turned};
pub use skipping::skip_over;
pub use units::take_unit;
