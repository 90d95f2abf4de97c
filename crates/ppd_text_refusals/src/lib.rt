//! The lines that say why a source or a recording is refused.
#![tactic(auto)]

mod recording;
mod source;
mod stage;

pub use recording::{bytes_line, log_line, sync_line};
pub use source::refusal_line;
