//! A run by threads, one for each process, over one book, from its start to its end, with the index of its logs and the
//! graph of its synchronization, and how its processes ended, as a text.
#![tactic(auto)]

mod ends;
mod logs;
mod outcome;
mod run;
mod text;
mod threads;

pub use ends::put_ends;
pub use logs::{graph_of, index_of};
pub use outcome::{Outcome, ended};
pub use run::{ClosedRun, Means, RunByThreads, Task, run_task};
