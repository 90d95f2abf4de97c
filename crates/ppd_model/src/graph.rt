/// Synchronization number `sync` of a process, from 0 in the order in which it did them.
#[derive(Clone, Copy)]
pub struct NodeId {
    pub process: u8,
    pub sync: u32,
}

/// Internal edge number `edge` of a process: what the process did after so many synchronizations
/// and before the next.
#[derive(Clone, Copy)]
pub struct EdgeId {
    pub process: u8,
    pub edge: u32,
}

/// How two edges of a race contend for a cell, the first process first.
#[derive(Clone, Copy)]
pub enum RaceKind {
    ReadWrite,
    WriteRead,
    WriteWrite,
}

/// A race: edge `i` of process `p` and edge `j` of a later process `q`, neither before the other,
/// and a cell that both access and one of them writes.
#[derive(Clone, Copy)]
pub struct Race {
    pub p: u8,
    pub i: u32,
    pub q: u8,
    pub j: u32,
    pub cell: u16,
    pub kind: RaceKind,
}
