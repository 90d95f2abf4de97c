//! Answers in runs with races: an item and its flowback edges, where no race touches the item's past.
#![tactic(auto)]

mod by_order;
mod clean;
mod clean_error;
mod cleaning;
mod copies;
mod cutting;
mod firsts;
mod laws;
mod left;
mod syncs;
mod unclean;
mod wanted;

pub use clean::Clean;
pub use clean_error::CleanError;
pub use cleaning::clean_edges;
pub use laws::cleans_are_of_runs;
pub use ppd_flow_past::Past;
