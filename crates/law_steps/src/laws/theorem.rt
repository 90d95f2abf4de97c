ghost use Rattle.law_steps.specs.Theorem.Laws.{EmulationsGiveIntervals, ReplaysGiveIntervals};

/// Law: for a valid program and the plan of any policy, in a whole schedule within any budget whose
/// list of races is empty, the replay of each interval of each process from its own log alone
/// succeeds, gives exactly the items that the interval has in the story of the schedule, and takes
/// exactly the interval's own steps. The logs have just the intervals that the story has. Channels
/// have any capacity, 0 among them.
pub fn replays_give_intervals()
    ensures { ReplaysGiveIntervals }
{}

/// Law: whatever answers as the replay of an interval's log, but for want of memory, and raises a
/// counter by its steps, as `emulate` does: with the log of an interval of such a schedule its
/// answer is that interval's items or want of memory, and the counter rises by exactly the
/// interval's own steps. It never answers that the log is not one of the interval.
pub fn emulations_give_intervals()
    ensures { EmulationsGiveIntervals }
{}
