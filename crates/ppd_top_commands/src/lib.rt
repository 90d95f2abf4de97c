//! The commands on a source, `flow`, `run` and `show`, and on a recording, `debug`: what is told of a run, and the
//! lines of an input, each answered before the next is read, on a run or on a recording.
#![tactic(auto)]

mod answering;
mod asking;
mod debugging;
mod recorded;
mod storing;
mod summary;
mod telling;

pub use answering::{flow, show};
pub use asking::refuse_replay;
pub use debugging::debug;
pub use ppd_top_output::finish;
pub use storing::{RecordTask, record_run};
pub use telling::tell;
