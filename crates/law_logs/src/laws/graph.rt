ghost use Rattle.law_logs.specs.Graph.Accepted.{GraphsOfRunsAreNotRefused, LogsOfRunsAreOrdered};

// A law of what the other calls give: it is the contract of a function that does nothing.

/// Law: the logs of a schedule that can be taken, with any plan, pass each test of their graph: each
/// synchronization has its object, no number stands twice, none is missing, and nothing happens before
/// itself. So none of the causes for which their graph is refused holds of them, but want of memory.
pub fn logs_of_runs_have_graphs()
    ensures ordered { LogsOfRunsAreOrdered }
    ensures refused { GraphsOfRunsAreNotRefused }
{}
