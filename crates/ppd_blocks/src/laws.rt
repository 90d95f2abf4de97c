ghost use Rattle.ppd_blocks.specs.Laws.{CellsByPaths, CellsAreShared};

// Laws of what the other calls give: each is the contract of a function that does nothing.

/// In a valid program a cell is among those of a unit just where a flow path leads from the unit's
/// start to a statement that may read the cell, and passes no other start of a unit before it.
pub fn cells_by_paths()
    ensures { CellsByPaths }
{}

/// In a valid program the cells of a unit are shared cells, rising.
pub fn cells_are_shared()
    ensures { CellsAreShared }
{}
