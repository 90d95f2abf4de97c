//! The full trace as a slow program: it takes a schedule's steps, tells what each process did, and
//! follows the writer of each cell and the tests and calls that led to each event.
#![tactic(auto)]

mod activations;
mod events;
mod pairs;
mod reads;
mod setting;
mod steps;
mod subject;
mod tellers;
mod tracer;
mod whole;

pub use setting::Setting;
pub use tellers::tell_story_in;
pub use whole::{full_trace, full_trace_in};
