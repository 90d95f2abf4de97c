use crate::At;
use ppd_ast::Memory;
use std::fmt;
use thiserror::Error;

/// Why logs have no index. The tests go through the processes and their entries in order, and of each entry
/// AfterEnd comes first, then Unpaired, then WrongValues.
#[derive(Clone, Copy, Error)]
pub enum BadLog {
    /// The entry stands where it cannot: entry 0 is no prelog of the process's own block, a later prelog names a
    /// process's block or is a function's while 64 intervals of functions run, a postlog names another block
    /// than the innermost running interval's, an entry other than an End with status ended stands where no
    /// interval runs, or that End where one does.
    #[error("the entry may not stand here")]
    Unpaired(At),
    /// The list is over without an End; the number is the count of its entries.
    #[error("the log is over without an End")]
    NoEnd(At),
    /// The entry stands after an End.
    #[error("the entry stands after an End")]
    AfterEnd(At),
    /// The plan has no such block or unit, or another count of values for it.
    #[error("the plan has no such block or unit, or other values")]
    WrongValues(At),
    /// Want of memory, also for a log whose entries have no 32-bit numbers.
    #[error("want of memory")]
    Memory,
}

impl From<Memory> for BadLog {
    ghost use Rattle.std.specs.Prelude.{◌≡◌};
    ghost use Rattle.ppd_model.specs.declared.bad_log.BadLog.TheVariants as bad;

    ghost from_gives = { λ _ e. e ≡ bad.Memory };

    fn from(_memory: Memory) -> BadLog {
        BadLog::Memory
    }
}

impl fmt::Debug for BadLog {
    fn fmt<W: fmt::Write>(&self, f: &mut fmt::Formatter<W>) -> fmt::Result {
        fmt::Display::fmt(self, f)
    }
}
