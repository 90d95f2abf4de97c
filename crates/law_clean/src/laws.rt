ghost use Rattle.law_clean.specs.Laws.{CleanEdgesAreFound, AnswersAreOfRuns, CutsAreAccepted, CutsAreReplayed};
ghost use Rattle.law_clean.specs.Ordered.{CleanReadsAreFound, UnracedReadsAreInForce};

/// Law: in a schedule of a valid program with the plan of a policy, racy or not, each read of a process up to some time
/// is answered by the value in force, if no race has the edge of any of these reads.
pub fn unraced_reads_are_in_force()
    ensures { UnracedReadsAreInForce }
{}

/// Law: a shared read is answered by the start value, by the last write of its own edge, or by the greatest edge before
/// it that writes the cell, if no race has its edge or an edge before it.
pub fn clean_reads_are_found()
    ensures { CleanReadsAreFound }
{}

/// Law: the log of a process, cut off after a synchronization and closed by a stop for the budget: the replay of each
/// interval gives the items that it has by then, in its own steps, and never fails, if no race has an edge of the
/// process up to there.
pub fn cuts_are_replayed()
    ensures { CutsAreReplayed }
{}

/// Law: the search for the edges of a clean item finds them.
pub fn clean_edges_are_found()
    ensures { CleanEdgesAreFound }
{}

/// Law: what is found of an item by logs, their races and replays of logs that are cut is what is to be answered: the
/// item with its edges, the least edge whose past has a race, or that there is no such item.
pub fn answers_are_of_runs()
    ensures { AnswersAreOfRuns }
{}

/// Law: logs that the index accepts are accepted when they are cut, whatever the logs.
pub fn cuts_are_accepted()
    ensures { CutsAreAccepted }
{}
