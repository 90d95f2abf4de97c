use ppd_ast::{Memory, Seq};
use ppd_sem::Event;
use std::fmt;
use thiserror::Error;

/// An event of a run by its process and its number among that process's events, both from 0.
#[derive(Clone, Copy)]
pub struct EventId {
    pub process: u8,
    pub number: u32,
}

/// An event of a full trace. `writers` has for each of its reads the event that last wrote the
/// place, or None where the place still has its start value; `parent` is the event of the test or
/// the call that let it run, or None where it stands in a process by itself; `paired` is the event
/// of the synchronization that leads to this one by its number.
#[derive(Drop)]
pub struct TracedEvent {
    pub event: Event,
    pub writers: Seq<Option<EventId>>,
    pub parent: Option<EventId>,
    pub paired: Option<EventId>,
}

/// A full trace: the events of each process in order.
#[derive(Drop)]
pub struct Trace {
    pub events: Seq<Seq<TracedEvent>>,
}

/// Why a schedule could not be taken.
#[derive(Clone, Copy, Error)]
pub enum DriveError {
    /// The number at this place of the schedule, from 0, names no enabled process, and it is the
    /// first such.
    #[error("this number of the schedule names no process that can take a step")]
    NotEnabled(u32),
    /// Want of memory.
    #[error("want of memory")]
    Memory,
}

impl From<Memory> for DriveError {
    ghost use Rattle.std.specs.Prelude.{◌≡◌};
    ghost use Rattle.ppd_model.specs.declared.trace.DriveError.TheVariants as drive;

    ghost from_gives = { λ _ e. e ≡ drive.Memory };

    fn from(_memory: Memory) -> DriveError {
        DriveError::Memory
    }
}

impl fmt::Debug for DriveError {
    fn fmt<W: fmt::Write>(&self, f: &mut fmt::Formatter<W>) -> fmt::Result {
        fmt::Display::fmt(self, f)
    }
}
