//! The logs of a whole schedule have an index, a graph and a recording: laws.
#![tactic(auto)]

mod laws;

pub use laws::graph::logs_of_runs_have_graphs;
pub use laws::index::logs_of_runs_are_indexed;
pub use laws::recording::{constants_have_64_bits, run_logs_are_lawful, values_have_64_bits};
