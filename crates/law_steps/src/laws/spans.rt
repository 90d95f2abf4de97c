ghost use Rattle.law_steps.specs.Coming.Openings.{SpansAreComing};

// A law of what the other calls give: it is the contract of a function that does nothing.

/// Law: in the story of a whole schedule of a valid program, with the plan of any policy, there is an
/// interval of a process just where one of its steps, or its start, opens a block; it has that block,
/// the items that are to come in it and the steps that are its own.
pub fn spans_are_coming()
    ensures { SpansAreComing }
{}
