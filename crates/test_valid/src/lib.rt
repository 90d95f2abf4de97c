//! Whether a program and a plan are valid: tests that answer just what the definitions of validity say, for tests.
#![tactic(auto)]

mod cells;
mod numbered;
mod order;
mod uses;
mod valid;
mod valid_plan;

pub use numbered::{is_same_kind, is_same_start};
pub use valid::is_valid_program;
pub use valid_plan::is_valid_plan;
