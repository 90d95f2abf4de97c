ghost use Rattle.ppd_session.specs.Knowing.{LogsAreKnown};
ghost use Rattle.ppd_session.specs.Laws.{LogsTellRuns, RunsAreAnswered};
ghost use Rattle.ppd_session.specs.Missing.{MissingWritesAreTold};

/// Law: of a valid program and the plan of a policy, what is known of the logs of a whole run within any budget, its
/// races, its intervals and, where there is no race, their items by replay, is what is known of the run.
pub fn logs_tell_runs()
    ensures { LogsTellRuns }
{}

/// Law: of a run no line is left without an answer: so of the logs of a whole run no replay that is asked for fails.
pub fn runs_are_answered()
    ensures { RunsAreAnswered }
{}

/// Law: of logs that the index accepts, where the edges of an item, or what a line needs, are not found for want of a
/// write, that write is missing: the entry ends an internal edge, its write set has the cell, and no event that the
/// replays give of that edge writes the cell.
pub fn missing_writes_are_told()
    ensures { MissingWritesAreTold }
{}

/// Law: of logs that the index accepts this is known. Their races are those of their record and sets, their intervals
/// those of their entries, and their items what the replay of each gives. Where a last value or the edges of an item
/// are not found, the replay of an interval fails at the entry that is named, or a write is missing that it records.
pub fn logs_are_known()
    ensures { LogsAreKnown }
{}
