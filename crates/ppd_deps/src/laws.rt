ghost use Rattle.ppd_deps.specs.Laws.{NoEdgeIsInvented};

// Laws of what the other calls give: each is the contract of a function that does nothing.

/// Law: no data edge is invented. For a local variable a flow path leads from the write to the
/// statement that reads it, and no other write of the variable ends it before, where that is a
/// scalar; for a shared one the write is in a body that a chain of calls reaches from a process.
pub fn no_edge_is_invented()
    ensures { NoEdgeIsInvented }
{}
