//! The world in code: the shared state with all processes and their logs, one step after the other.
#![tactic(auto)]

mod closing;
mod logging;
mod needs;
mod objects;
mod starting;
mod stepping;
mod store;
mod world;

pub use world::World;
