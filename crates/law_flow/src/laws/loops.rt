ghost use Rattle.law_flow.specs.Locals.AllReads.{AllLocalReadsAreFound};
ghost use Rattle.law_flow.specs.Loops.LoopsLeft.{LoopsLeftAreFound};
ghost use Rattle.law_flow.specs.Loops.AllOwnParts.{AllOwnPartsAreFound};

// Laws of what the other calls give: each is the contract of a function that does nothing.

/// Law: in every schedule of a valid program, with the plan of a policy, the search over the items of a process finds
/// for each read of a local cell the event that last wrote the cell in its activation, and the start value where no
/// event did: in the interval of a loop, after a loop, and elsewhere.
pub fn all_local_reads_are_found()
    ensures { AllLocalReadsAreFound }
{}

/// Law: in every schedule of a valid program, with the plan of a policy, the search from after a closed interval of a
/// loop finds for each value that it left the event that last wrote the value's cell, and the start value where no
/// event did.
pub fn loops_left_are_found()
    ensures { LoopsLeftAreFound }
{}

/// Law: in every schedule of a valid program, with the plan of a policy, the search within a process finds for each
/// item the origins of its local reads and of its control, and all edges of an interval, as the model has them: with
/// this all edges of an item are found.
pub fn all_own_parts_are_found()
    ensures { AllOwnPartsAreFound }
{}
