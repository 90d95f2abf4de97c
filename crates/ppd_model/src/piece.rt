use ppd_sem::{Status, SyncKind};

/// A piece of an interval's log: an entry that the interval's own step wrote, or an interval
/// directly inside it. Its values stand in the log of the process.
#[derive(Clone, Copy)]
pub enum Piece<'a> {
    /// A synchronization unit started: its number and the values of its cells.
    Unit(u16, &'a [i64]),
    /// A synchronization: its kind, its object, its number among those of this kind and object,
    /// from 1, and the value that was sent or received, 0 for a `P` or a `V`.
    Sync(SyncKind, u8, u32, i64),
    /// An interval that was left: its number in the process, its block and the values of its
    /// postlog.
    Nested(u32, u16, &'a [i64]),
    /// An interval that was not left: its number in the process and its block.
    Unfinished(u32, u16),
    /// The interval itself was left, with these values.
    Postlog(&'a [i64]),
    /// The process came to its end inside the interval: how, and the count of its steps after the
    /// last earlier one that wrote an entry.
    End(Status, u32),
}
