//! How everything is written: bytes, numbers, values and places; the static tables of a program and a plan of it; the
//! items of intervals, their flowback edges and the last values of shared cells.
#![tactic(auto)]

mod cell_names;
mod edges;
mod event_kinds;
mod items;
mod kinds;
mod lasts;
mod lines;
mod met;
mod names;
mod number;
mod plans;
mod text;

pub use cell_names::{at_entry, process_name, put_cell, put_trap, put_what};
pub use edges::put_why;
pub use event_kinds::put_event_kind;
pub use items::{put_access, put_each_access, put_item, put_items, put_outcome, written_locals};
pub use kinds::{put_kind, put_named};
pub use lasts::put_last;
pub use lines::{put_stmt_at, table};
pub use names::{body_name, chan_name, sem_name, var_name};
pub use number::number_in;
pub use plans::{block_locals, locals_of, locals_round, put_block_what};
pub use text::{put, put_count, put_number, put_place, put_value};
