//! The guided schedule of a record: at each moment the lowest process takes a step that can take one which the record lets
//! it take; what a controlled re-execution answers, and that it says yes of every whole schedule without a race, as laws;
//! and the guided run.
#![tactic(auto)]

mod guide;
mod laws;
mod setting;
mod synced;
mod verdict;

pub use guide::Guide;
pub use laws::{guided_schedules_agree, reruns_say_yes};
pub use setting::Setting;
pub use synced::{Due, Synced};
pub use verdict::{No, Verdict};
