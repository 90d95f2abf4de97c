ghost use Rattle.law_steps.specs.Coming.Openings.{LogsAreComing};

/// Law: for a valid program and the plan of any policy, in a whole schedule the logs have just the
/// intervals that the process opens, and the log of each has the block and the values with which it
/// begins, as depth the count of functions that are blocks among the frames then, and the pieces that
/// are to come by the process's own steps.
pub fn logs_are_coming()
    ensures { LogsAreComing }
{}
