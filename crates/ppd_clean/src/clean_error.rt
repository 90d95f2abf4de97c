use ppd_ast::Memory;
use ppd_model::EdgeId;
use std::fmt;
use thiserror::Error;

/// Why an item of a run with races is not answered.
#[derive(Clone, Copy, Error)]
pub enum CleanError {
    /// The past of this internal edge has an edge of a race: the least such edge of the process, from the one in which
    /// the interval begins.
    #[error("a race touches the past of this edge")]
    Unclean(EdgeId),
    /// The interval has no item of this number, and reaches no such edge.
    #[error("the interval has no item of this number")]
    NoEvent,
    /// The log of an interval of this process, cut off before the races, is not one of a run: its replay cannot go on
    /// with this entry.
    #[error("the replay cannot go on with this entry")]
    Diverged { process: u8, entry: u32 },
    /// The write set of this entry, a synchronization or an end, has the cell, and the replay of the internal edge
    /// that it ends does not write it.
    #[error("the internal edge that this entry ends does not write this cell")]
    Sets { process: u8, entry: u32, cell: u16 },
    /// Want of memory, also for items that have no 32-bit numbers.
    #[error("want of memory")]
    Memory,
}

impl From<Memory> for CleanError {
    ghost use Rattle.std.specs.Prelude.{◌≡◌};
    ghost use Rattle.ppd_clean.specs.declared.clean_error.CleanError.TheVariants as clean_error;

    ghost from_gives = { λ _ e. e ≡ clean_error.Memory };

    fn from(_memory: Memory) -> CleanError {
        CleanError::Memory
    }
}

impl fmt::Debug for CleanError {
    fn fmt<W: fmt::Write>(&self, f: &mut fmt::Formatter<W>) -> fmt::Result {
        fmt::Display::fmt(self, f)
    }
}
