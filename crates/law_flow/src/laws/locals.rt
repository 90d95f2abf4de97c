ghost use Rattle.law_flow.specs.Locals.LocalReads.{LocalReadsAreFound, PoliciesWithoutLoops};
ghost use Rattle.law_flow.specs.Locals.Returned.{ReturnsAreFound};

// Laws of what the other calls give: each is the contract of a function that does nothing.

/// Law: in every schedule of a valid program, with the plan of a policy, the search over the items of a process finds
/// for each read of a local cell outside loops the event that last wrote the cell in its activation, and the start
/// value where no event did. Outside loops: no loop's interval stands before the event in its interval, and that is one
/// of a loop only where the event is in an activation called from it. Under a policy without block loops each read is.
pub fn local_reads_are_found()
    ensures reads { LocalReadsAreFound }
    ensures policies { PoliciesWithoutLoops }
{}

/// Law: in every schedule of a valid program, with the plan of a policy, the event that returned the value of a closed
/// interval of a function is the interval's last item, which is what the search names.
pub fn returns_are_found()
    ensures { ReturnsAreFound }
{}
