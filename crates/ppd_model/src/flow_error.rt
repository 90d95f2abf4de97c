use ppd_ast::Memory;
use std::fmt;
use thiserror::Error;

/// Why an origin is not found.
#[derive(Clone, Copy, Error)]
pub enum FlowError {
    /// The log of an interval of this process is not one of a run: its replay cannot go on with this entry.
    #[error("the replay cannot go on with this entry")]
    Diverged { process: u8, entry: u32 },
    /// The interval has no item of this number.
    #[error("the interval has no item of this number")]
    NoEvent,
    /// The write set of this entry, a synchronization or an end, has the cell, and the replay of the internal edge
    /// that it ends does not write it.
    #[error("the internal edge that this entry ends does not write this cell")]
    Sets { process: u8, entry: u32, cell: u16 },
    /// Want of memory, also for items that have no 32-bit numbers.
    #[error("want of memory")]
    Memory,
}

impl From<Memory> for FlowError {
    ghost use Rattle.std.specs.Prelude.{◌≡◌};
    ghost use Rattle.ppd_model.specs.declared.flow_error.FlowError.TheVariants as flow_error;

    ghost from_gives = { λ _ e. e ≡ flow_error.Memory };

    fn from(_memory: Memory) -> FlowError {
        FlowError::Memory
    }
}

impl fmt::Debug for FlowError {
    fn fmt<W: fmt::Write>(&self, f: &mut fmt::Formatter<W>) -> fmt::Result {
        fmt::Display::fmt(self, f)
    }
}
