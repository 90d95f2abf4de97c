ghost use Rattle.std.specs.Prelude.{◌≡◌};
ghost use Rattle.ppd_model.specs.Entries.{same_kind};

use crate::boxed::{BoxedCells, BoxedNums};
use ppd_sem::{Seq, Status, SyncKind};

/// An entry of a process's log. Numbers of blocks and units are those of the plan, cells are
/// shared cells, rising. `reads` and `writes` are the cells accessed since the previous
/// synchronization of the process, or since its start.
#[derive(Drop)]
pub enum Entry {
    /// A block was entered: of a function the values of its parameters, of a loop those of the
    /// local cells that it may read or write.
    Prelog {
        block: u16,
        values: BoxedNums,
    },
    /// A synchronization unit started: the values of the shared cells that it may read.
    Unit {
        unit: u16,
        values: BoxedNums,
    },
    /// A synchronization: its number, from 1, among those of its kind and object, and the value
    /// that was sent or received, 0 for a `P` or a `V`.
    Sync {
        kind: SyncKind,
        object: u8,
        number: u32,
        value: i64,
        reads: BoxedCells,
        writes: BoxedCells,
    },
    /// A block was left: of a function the value that it returned, if any, of a loop the values of
    /// the local cells that it may write.
    Postlog {
        block: u16,
        values: BoxedNums,
    },
    /// The process came to its end: `rest` counts the steps after the last earlier one that wrote
    /// an entry, or from the start; the step that writes this entry is not counted.
    End {
        status: Status,
        rest: u32,
        reads: BoxedCells,
        writes: BoxedCells,
    },
}

/// The logs of a run: the entries of each process in order.
#[derive(Drop)]
pub struct Logs {
    pub lists: Seq<Seq<Entry>>,
}

/// An entry by its process and its number in that process's log, both from 0.
#[derive(Clone, Copy)]
pub struct At {
    pub process: u8,
    pub entry: u32,
}

/// Whether the kinds are one.
pub fn same_kind(a: SyncKind, b: SyncKind) -> bool
    ensures { result ≡ same_kind a b }
{
    matches!(
        (a, b),
        (SyncKind::P, SyncKind::P)
            | (SyncKind::V, SyncKind::V)
            | (SyncKind::Send, SyncKind::Send)
            | (SyncKind::Recv, SyncKind::Recv)
            | (SyncKind::Done, SyncKind::Done)
    )
}
