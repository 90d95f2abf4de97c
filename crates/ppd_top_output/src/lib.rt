//! A text that is written, and with which status that ends.
#![tactic(auto)]

mod finishing;
mod replying;

pub use finishing::finish;
pub use replying::finish_reply;
