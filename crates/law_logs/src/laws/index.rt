ghost use Rattle.law_logs.specs.Index.Accepted.{LogsOfRunsAreIndexed};

// A law of what the other calls give: it is the contract of a function that does nothing.

/// Law: no entry of the logs of a whole schedule of a valid program, with the plan of any policy, is
/// refused by their index.
pub fn logs_of_runs_are_indexed()
    ensures { LogsOfRunsAreIndexed }
{}
