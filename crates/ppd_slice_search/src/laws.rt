ghost use Rattle.ppd_slice_search.specs.Laws.{LevelsAreReach, ReachesAreSlices, SlicesAreOne};

// Laws of what the other calls give: each is the contract of a function that does nothing.

/// Law: where items are finitely many, the search by levels finds the slice of an item.
pub fn levels_are_reach()
    ensures { LevelsAreReach }
{}

/// Law: an item has one slice.
pub fn slices_are_one()
    ensures { SlicesAreOne }
{}

/// Law: in each story `reach` computes the slice of an item that is there.
pub fn reaches_are_slices()
    ensures { ReachesAreSlices }
{}
