use crate::lists::{Cells, Seq};

/// What an e-block is the code of, by number.
#[derive(Clone, Copy)]
pub enum BlockKind {
    /// A function's body.
    Function(u16),
    /// A process's body.
    Process(u16),
    /// A `while`, by its statement.
    Loop(u32),
}

/// An e-block: the local cells of its prelog and of its postlog, rising.
#[derive(Drop)]
pub struct Block {
    pub kind: BlockKind,
    pub prelog: Cells,
    pub postlog: Cells,
    /// Whether the postlog holds a returned value.
    pub value: bool,
}

/// Where a synchronization unit starts.
#[derive(Clone, Copy)]
pub enum Start {
    /// A body's entry.
    Entry(u16),
    /// After a call or a synchronization.
    After(u32),
    /// A block loop's entry.
    Enter(u32),
    /// A block loop's exit.
    Exit(u32),
}

/// A synchronization unit: the shared cells that it may read, rising.
#[derive(Drop)]
pub struct Unit {
    pub start: Start,
    pub cells: Cells,
}

/// What makes a function or a loop an e-block; each number is 0 to 4,096.
#[derive(Clone, Copy)]
pub struct Policy {
    /// A function without a call and with fewer core statements is no block.
    pub leaf: u16,
    /// An outermost `while` with at least so many core statements inside is a block; 0 for none.
    pub loops: u16,
}

/// The e-blocks and units of a program under a policy.
#[derive(Drop)]
pub struct Plan {
    pub policy: Policy,
    pub blocks: Seq<Block>,
    pub units: Seq<Unit>,
}
