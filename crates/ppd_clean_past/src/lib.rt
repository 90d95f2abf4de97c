//! Whether a race touches the past of an item, by the order of a graph, and how much of a log stays where it is cut
//! off.
#![tactic(auto)]

mod asked;
mod by_order;
mod entries;
mod unclean;

pub use asked::Asked;
pub use by_order::{is_in_past, last_edge};
pub use entries::{first_entries, kept_entries};
pub use unclean::is_unclean_at;
