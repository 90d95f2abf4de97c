ghost use Rattle.law_flow.specs.JoinedLaws.{JoinedAreEvents, JoinedTraceIsFull, TracesAreFollowed};

// Laws of what the other calls give: each is the contract of a function that does nothing.

/// Law: in every schedule of a valid program the items of a process's intervals, joined, are the events of its trace.
pub fn joined_are_events()
    ensures { JoinedAreEvents }
{}

/// Law: the control parents of a process's events and the writers of their local reads follow from the events before
/// them.
pub fn traces_are_followed()
    ensures { TracesAreFollowed }
{}

/// Law: in each run of a valid program without a race the items of all processes, joined and linked, are the full
/// trace.
pub fn joined_trace_is_full()
    ensures { JoinedTraceIsFull }
{}
