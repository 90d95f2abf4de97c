ghost use Rattle.ppd_sets.specs.Laws.{UsedByChains, DefinedByChains, LoopUsedByStatements, LoopDefinedByStatements};

// Laws of what the other calls give: each is the contract of a function that does nothing.

/// A shared variable is among those that a body uses just where a statement of a body that a chain
/// of calls reaches from it may read one of its cells.
pub fn used_by_chains()
    ensures { UsedByChains }
{}

/// A shared variable is among those that a body defines just where a statement of a body that a
/// chain of calls reaches from it writes one of its cells.
pub fn defined_by_chains()
    ensures { DefinedByChains }
{}

/// In a valid program a local cell is among those that a `while` uses just where its test or a
/// statement inside it may read the cell.
pub fn loop_used_by_statements()
    ensures { LoopUsedByStatements }
{}

/// In a valid program a local cell is among those that a `while` defines just where a statement
/// inside it writes the cell.
pub fn loop_defined_by_statements()
    ensures { LoopDefinedByStatements }
{}
