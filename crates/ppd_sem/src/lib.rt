//! One process: what its next step needs, and the step that it takes.
#![tactic(auto)]

mod asking;
mod at_block;
mod blocks;
mod copying;
mod cost;
mod describing;
mod effect;
mod eval;
mod event;
mod feeding;
mod frame;
mod frames;
mod laws;
mod looking;
mod passing;
mod proc;
mod reading;
mod skipping;
mod stack;
mod starting;
mod tables;
mod todos;

pub use asking::{Pause, ask};
pub use blocks::{block_kind, block_unit, postlog_cells, prelog_cells};
pub use describing::describe;
pub use effect::Effect;
pub use event::{Access, Event, Spot};
pub use feeding::{feed, meet};
pub use frame::size_at;
pub use laws::{
    arguments_come_first, arithmetic_is_exact, divides_toward_zero, index_comes_first,
    needs_are_there, offers_are_completed, prints_are_not_read, reads_are_answers, steps_end,
    stops_early, valid_can_run, valid_is_numbered,
};
pub use looking::{capacity_of, look};
pub use passing::{call_values, local_cells, next_effect, next_stmt, returned_value};
pub use ppd_ast::{Memory, Seq, Status, SyncKind, Trap};
pub use proc::{Answer, Frame, Need, Proc, Todo};
pub use skipping::skip;
pub use stack::Stack;
pub use tables::{find_block, find_unit};
