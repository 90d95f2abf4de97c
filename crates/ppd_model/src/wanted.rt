use ppd_ast::{Nums, Status, SyncKind};

/// What a replay needs the next piece of the log to be. The value of a synchronization is what is
/// sent, and 0 for any but a send.
#[derive(Drop)]
pub enum Wanted {
    /// The start of this unit.
    Unit(u16),
    /// This synchronization, by kind, object and value.
    Sync(SyncKind, u8, i64),
    /// An interval of this block directly inside the replayed one.
    Nested(u16),
    /// The interval's own postlog, with these values.
    Postlog(Nums),
    /// The end of the process in this way.
    End(Status),
    /// Fewer steps: the next one exceeds the budget, or the process ended before it.
    Fewer,
}

/// A piece of the log as a replay found it. The value of a synchronization is what was sent, and 0
/// for any but a send; an interval that was not left is found by its block, as one that was.
#[derive(Drop)]
pub enum Found {
    /// The start of this unit.
    Unit(u16),
    /// This synchronization, by kind, object and value.
    Sync(SyncKind, u8, i64),
    /// An interval of this block directly inside the replayed one.
    Nested(u16),
    /// The interval's own postlog, with these values.
    Postlog(Nums),
    /// The end of the process in this way.
    End(Status),
}
