ghost use Rattle.law_steps.specs.InForce.Values.{ReadsAreInForce};

// A law of what the other calls give: it is the contract of a function that does nothing.

/// Law: in a schedule without a race, of a valid program with the plan of a policy, each shared read
/// of a process is answered by the value in force: that of its own last write of the cell since its
/// unit began, or else the cell's value in that unit. The schedule need not be whole.
pub fn reads_are_in_force()
    ensures { ReadsAreInForce }
{}
