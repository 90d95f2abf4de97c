ghost use Rattle.law_flow.specs.Control.Found.{ControlsAreFound};

/// Law: in every run of a valid program with the plan of a policy, racy or not, the search over the items of a
/// process finds the control edge of each of its items: for an event the parent that the trace has, for a loop's
/// interval the parent of its first test, and for a function's interval the call, which stands straight before it.
pub fn own_controls_are_found()
    ensures { ControlsAreFound }
{}
