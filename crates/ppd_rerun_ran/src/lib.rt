//! The guided run to its end, the intervals of its processes as it goes on, and whether items are those of an interval.
#![tactic(auto)]

mod alike;
mod events;
mod held;
mod ran;

pub use alike::are_items;
pub use held::{Held, Kept, Part, number};
pub use ran::{Ran, guided_run};
