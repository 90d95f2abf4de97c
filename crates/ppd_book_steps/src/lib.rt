//! Steps of a world that are written down, and whether one of its processes is as it was copied.
#![tactic(auto)]

mod current;
mod stepping;

pub use current::is_current;
pub use stepping::step_down;
