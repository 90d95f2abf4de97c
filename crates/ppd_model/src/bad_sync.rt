use crate::{At, NodeId};
use ppd_ast::{Memory, Seq, SyncKind};
use std::fmt;
use thiserror::Error;

/// Why logs have no graph.
#[derive(Drop, Error)]
pub enum BadSync {
    /// The number of this synchronization stood before, or is one that a semaphore has from the start.
    #[error("the number of this synchronization stood before")]
    NumberTwice(At),
    /// The synchronization of this kind, object and number is missing.
    #[error("a synchronization of this number is missing")]
    NumberMissing(SyncKind, u8, u32),
    /// Synchronizations each of which leads to the next, and the last to the first.
    #[error("synchronizations lead back to the first of them")]
    Cycle(Seq<NodeId>),
    /// This synchronization's object is no semaphore or channel of its kind.
    #[error("this synchronization has no such object")]
    NoObject(At),
    /// Want of memory.
    #[error("want of memory")]
    Memory,
}

impl From<Memory> for BadSync {
    ghost use Rattle.std.specs.Prelude.{◌≡◌};
    ghost use Rattle.ppd_model.specs.declared.bad_sync.BadSync.TheVariants as bad;

    ghost from_gives = { λ _ e. e ≡ bad.Memory };

    fn from(_memory: Memory) -> BadSync {
        BadSync::Memory
    }
}

impl fmt::Debug for BadSync {
    fn fmt<W: fmt::Write>(&self, f: &mut fmt::Formatter<W>) -> fmt::Result {
        fmt::Display::fmt(self, f)
    }
}
