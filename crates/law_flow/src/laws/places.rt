ghost use Rattle.law_flow.specs.Places.Leaves.{LeafTells};

/// Law: after each beginning of the steps of a process that has not stopped, in a schedule of a valid program with
/// the plan of a policy, the items so far of the intervals that run tell which activation goes on: whether it has an
/// interval of its own, the item that called it, and the frame of the next step's accesses.
pub fn leaf_tells()
    ensures { LeafTells }
{}
