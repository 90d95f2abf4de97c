ghost use Rattle.law_steps.specs.OpenBlocks.Run.{SchedulesAreRuns};
ghost use Rattle.law_steps.specs.OpenBlocks.Stack.{StepsMoveBlocks};

// Laws of what the other calls give: each is the contract of a function that does nothing.

/// Law: what a whole schedule of a valid program tells of a process are its steps from its start, each
/// with an answer to what it needs; at their end the process has stopped, or waits at a synchronization.
pub fn schedules_are_runs()
    ensures { SchedulesAreRuns }
{}

/// Law: in a run of a valid program each step opens its block inside those that are open, or closes the
/// innermost of them; a process ends in its own block alone. The blocks that are open are the loops
/// entered, the functions of the frames, and the process's own.
pub fn steps_move_blocks()
    ensures { StepsMoveBlocks }
{}
