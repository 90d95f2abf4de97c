ghost use Rattle.law_flow.specs.Edges.Assembled.{EdgesAreFound};
ghost use Rattle.law_flow.specs.Edges.Near.{WalksCostLittle, WalksStayNear};
ghost use Rattle.law_flow.specs.Edges.SharedEdges.{LastWritesAreFound, PairsAreFound, SharedOriginsAreFound};
ghost use Rattle.law_flow.specs.Edges.Within.{ReplaysAreWithin};

// Laws of what the other calls give: each is the contract of a function that does nothing.

/// Law: in each run of a valid program without a race, whatever its plan, the search finds for each shared
/// read of an event the item that its tag names, and the start where there is none: the last write of the
/// read's own internal edge, else the last one in the greatest edge before it, by happened-before, whose
/// recorded write set has the cell. No such edge is without its write.
pub fn shared_origins_are_found()
    ensures { SharedOriginsAreFound }
{}

/// Law: and it finds the last value of each shared cell and the item that wrote it, in the greatest of all
/// edges whose recorded write set has the cell.
pub fn last_writes_are_found()
    ensures { LastWritesAreFound }
{}

/// Law: in each schedule of a valid program, with or without a race, the search finds the pair of each
/// synchronization where its edge ends: the `V` of a `P`, the send of a receive, the receive that freed a send's
/// place, and on a channel of capacity 0 the receive of a completion and the completion before an offer. A `P`
/// without a `V` comes from the start, and no other event has a pair.
pub fn pairs_are_found()
    ensures { PairsAreFound }
{}

/// Law: where the search finds for an item, as the model has it, what it finds within the process (the writers of
/// the local cells that an event reads and its control, or all edges of an interval), it finds all edges of the
/// item, in order, in a run of a valid program without a race; and none exactly where there is no such item.
pub fn edges_are_found()
    ensures { EdgesAreFound }
{}

/// Law: replays of intervals of one process, each once and each near in a sense, add no more than the own steps of
/// all intervals that are near.
pub fn replays_are_within()
    ensures { ReplaysAreWithin }
{}

/// Law: in each schedule of a valid program, with or without a race, each interval that the walk back from an event
/// replays is round the event or open in its internal edge.
pub fn walks_stay_near()
    ensures { WalksStayNear }
{}

/// Law: and it replays each interval at most once, and not that of the event, so that with the event's own interval
/// they have no more own steps than the intervals near to the event.
pub fn walks_cost_little()
    ensures { WalksCostLittle }
{}
