//! The replay of one log interval from its own log.
#![tactic(auto)]

mod emulating;
mod fitting;
mod stepping;
mod turning;
mod wanting;

pub use emulating::{Counters, emulate, emulate_in};
pub use ppd_emul_values::LogIndex;
pub use ppd_model::{BlockTrace, EmulError, Found, Item, Piece, Wanted};
