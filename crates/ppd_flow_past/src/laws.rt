ghost use Rattle.ppd_flow_past.specs.Honest.{ReplaysAreSeen};

/// Law: of the logs of a whole schedule without a race, under the plan of a policy, no replay fails; the replays of
/// a process's intervals give exactly what the process's intervals are in the story: their items, their blocks, and
/// the intervals round each; and each takes the interval's own steps.
pub fn replays_are_seen()
    ensures { ReplaysAreSeen }
{}
