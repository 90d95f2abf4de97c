//! Recordings of runs: what is stored of a run, and what is taken from bytes that were loaded, or why they are refused.
#![tactic(auto)]

mod laws;
mod recalling;
mod storing;

pub use laws::{recalled_runs, refused_or_accepted};
pub use ppd_session::{Past, Reply, Session, SessionError, replay_line};
pub use recalling::{NoRecall, Recalled, recall};
pub use storing::record;
