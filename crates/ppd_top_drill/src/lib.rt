//! The sources that drills run: pipelines of processes, each the same at every run; and that each is a source of the
//! language: a law.
#![tactic(auto)]

mod laws;
mod pipeline;

pub use laws::drills_are_read;
pub use pipeline::generate;
