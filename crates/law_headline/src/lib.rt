//! The headline by its own words, and that it holds of each run of an accepted program.
#![tactic(auto)]

mod laws;

pub use laws::runs_have_the_headline;
