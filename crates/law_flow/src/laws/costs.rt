ghost use Rattle.law_flow.specs.Costs.Bounds.{EdgesCostLittle, LastCostsLittle};

// Laws of what the other calls give: each is the contract of a function that does nothing.

/// Law: in a run of a valid program without a race, where what the search finds for an item within its process is as
/// the model has it, the intervals that it replays for the item's n edges have, each counted as often as it is
/// replayed, at most 2 (n + 1) times the own steps of the intervals near to the item: those round it with the loops
/// directly inside these, those open in the item's internal edge, and of each edge's origin its interval and those
/// open in its internal edge.
pub fn edges_cost_little()
    ensures { EdgesCostLittle }
{}

/// Law: and those that it replays for the last value of a shared cell have no more own steps than the intervals that
/// are open in the internal edge of the last write; for a start value it replays none.
pub fn last_costs_little()
    ensures { LastCostsLittle }
{}
