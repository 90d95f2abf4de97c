use ppd_ast::Nums;
use ppd_sem::{Event, Spot};

/// An item of a log interval: an event of its own, or an interval directly inside it with its
/// number in the process, its block and the values of its postlog, none where it is not closed.
#[derive(Drop)]
pub enum Item {
    Own(Event),
    Nested {
        interval: u32,
        block: u16,
        values: Nums,
        closed: bool,
    },
}

/// Where a value or the control came from.
#[derive(Clone, Copy)]
pub enum Origin {
    /// The value that was there at the start.
    Initial,
    /// The process itself, which no test and no call of it let run.
    Entry,
    /// An item of an interval of a process, by number.
    Item {
        process: u8,
        interval: u32,
        item: u32,
    },
}

/// What a flowback edge stands for.
#[derive(Clone, Copy)]
pub enum EdgeKind {
    /// A read of the item.
    Read,
    /// A local cell that a closed loop left.
    Left,
    /// The value that a closed function returned.
    Returned,
    /// A synchronization that another one leads to.
    Sync,
    /// The test, the call or the process that let the item run.
    Control,
}

/// A flowback edge into an item. `spot` and `value` are there for a read and for what a loop left,
/// the value alone for what a function returned.
#[derive(Clone, Copy)]
pub struct FlowEdge {
    pub kind: EdgeKind,
    pub spot: Option<Spot>,
    pub value: Option<i64>,
    pub from: Origin,
}
