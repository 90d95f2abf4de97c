//! Questions about a run, and their answers: its races, the intervals of its processes with their items, where values
//! came from, last values, and static edges.
#![tactic(auto)]

mod answers;
mod blocks;
mod deps;
mod kept;
mod last_tables;
mod lasts;
mod laws;
mod opening;
mod place;
mod question;
mod races;
mod refusing;
mod reply;
mod session;
mod why;
mod words;

pub use laws::{logs_are_known, logs_tell_runs, missing_writes_are_told, runs_are_answered};
pub use opening::{interval_there, no_items};
pub use ppd_flow_past::Past;
pub use ppd_model::At;
pub use question::process_named;
pub use races::put_racy;
pub use refusing::replay_line;
pub use reply::{Reply, SessionError};
pub use session::Session;
pub use why::why_text;
