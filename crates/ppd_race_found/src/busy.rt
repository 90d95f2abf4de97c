use ppd_ast::Cells;
use ppd_model::{EdgeId, RaceKind};
use ppd_sets::CellSet;

/// An internal edge that accesses shared cells: those that it reads, those that it writes, and all of them, rising.
#[derive(Drop)]
pub struct Busy {
    pub edge: EdgeId,
    pub reads: CellSet,
    pub writes: CellSet,
    pub cells: Cells,
}

/// An edge that accesses some cell, and its place among the busy edges of its process.
#[derive(Clone, Copy)]
pub struct Accessor {
    pub place: usize,
    pub edge: EdgeId,
}

/// What races have beside their first edge: the second edge, the cell and the kind.
#[derive(Clone, Copy)]
pub struct Against {
    pub edge: EdgeId,
    pub cell: u16,
    pub kind: RaceKind,
}
