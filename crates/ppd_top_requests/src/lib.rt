//! What the words of the command line ask for: a command with its names, its options and its numbers, each within its
//! limits. What clap reads of them is exactly what they give by the definition.
#![tactic(auto)]

pub mod commands;
mod laws;
mod options;
mod query;
mod read;
mod shape;
mod words;

pub use commands::read_command;
pub use laws::{flow_tests_numbers_last, show_tests_numbers_last, tests_may_come_last};
pub use options::Options;
pub use query::{AskedItem, Query};
pub use read::read_words;
pub use words::{Command, Request, SourceRequest, asked};
