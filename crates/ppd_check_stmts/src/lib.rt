//! The statements of the core form, with the rules that they break.
#![tactic(auto)]

mod arrays;
mod begun;
mod blocks;
mod calls;
mod changes;
mod counts;
mod forms;
mod formulas;
mod held;
mod hidden;
mod locals;
mod parts;
mod simple;
mod statements;
mod stores;
mod turns;
mod values;
mod walk;
mod words;

pub use blocks::write_block;
