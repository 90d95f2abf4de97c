ghost use Rattle.law_flow.specs.Missing.{MissingWritesAreTold};

/// Law: of logs that the index accepts, where the search for the edges of an item or for the last value of a cell finds
/// no write in an edge, whatever replays give: the entry that it names is there, it ends an internal edge, its recorded
/// write set has the cell, and no event that the replays give of that edge writes the cell.
pub fn missing_writes_are_told()
    ensures { MissingWritesAreTold }
{}
