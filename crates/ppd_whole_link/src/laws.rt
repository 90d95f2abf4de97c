ghost use Rattle.ppd_whole_link.specs.Laws.{LinkersAreLinked, MarksAreWriters};

// Laws of what the other calls give: each is the contract of a function that does nothing.

/// Law: a process that is followed has the activations, calls, number and edge that follow from its events, and the
/// last write of each shared cell of its marks.
pub fn linkers_are_linked()
    ensures { LinkersAreLinked }
{}

/// Law: what the events of a process leave is the last write of each cell in each edge, and the numbers of the
/// synchronizations.
pub fn marks_are_writers()
    ensures { MarksAreWriters }
{}
