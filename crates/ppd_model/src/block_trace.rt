use crate::Item;
use crate::wanted::{Found, Wanted};
use ppd_ast::{Memory, Seq};
use std::fmt;
use thiserror::Error;

/// What the replay of an interval gives: its items in order.
#[derive(Drop)]
pub struct BlockTrace {
    pub items: Seq<Item>,
}

/// Why an interval could not be replayed.
#[derive(Drop, Error)]
pub enum EmulError {
    /// The log is not one of a run of this interval: the entry of this number in the process's log
    /// is the first that the replay cannot go on with. `wanted` is what it needed there, and
    /// `found` what stands there.
    #[error("the replay cannot go on with this entry")]
    Diverged {
        entry: u32,
        wanted: Wanted,
        found: Found,
    },
    /// Want of memory.
    #[error("want of memory")]
    Memory,
}

impl From<Memory> for EmulError {
    ghost use Rattle.std.specs.Prelude.{◌≡◌};
    ghost use Rattle.ppd_model.specs.declared.block_trace.EmulError.TheVariants as emul_error;

    ghost from_gives = { λ _ e. e ≡ emul_error.Memory };

    fn from(_memory: Memory) -> EmulError {
        EmulError::Memory
    }
}

impl fmt::Debug for EmulError {
    fn fmt<W: fmt::Write>(&self, f: &mut fmt::Formatter<W>) -> fmt::Result {
        fmt::Display::fmt(self, f)
    }
}
