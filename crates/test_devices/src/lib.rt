//! Devices in memory, for tests: sources, sinks and shelves with faults at chosen calls, and such as never fail.
#![tactic(auto)]

mod calls;
mod entries;
mod memory;
mod steady;

pub use memory::{MemoryShelf, MemorySink, MemorySource};
pub use steady::{SteadyShelf, SteadySink};
