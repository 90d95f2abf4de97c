use ppd_ast::{Seq, Trap};

/// A cell that a step reads or writes. `frame` is 0 for the frame of the innermost interval
/// that the step belongs to, and 1 for a frame called from it.
#[derive(Clone, Copy, PartialEq)]
pub enum Spot {
    Local { frame: u8, cell: u16 },
    Shared(u16),
}

/// A cell with the value that was read from it or written to it.
#[derive(Clone, Copy)]
pub struct Access {
    pub spot: Spot,
    pub value: i64,
}

/// A statement that finished or trapped. `number` is the number of its synchronization.
#[derive(Drop)]
pub struct Event {
    pub stmt: u32,
    pub reads: Seq<Access>,
    pub writes: Seq<Access>,
    pub value: Option<i64>,
    pub number: Option<u32>,
    pub trap: Option<Trap>,
}
