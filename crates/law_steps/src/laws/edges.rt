ghost use Rattle.law_steps.specs.Sound.{ControlComesOverEdges, LocalReadsComeOverEdges, ReadsComeOverEdges};
ghost use Rattle.law_steps.specs.Sound.{SharedReadsComeOverEdges, VariablesAreFew};

// Laws of what the other calls give: each is the contract of a function that does nothing.

/// Law: in every schedule of a valid program, whole or not and with whatever plan, the control parent of
/// an event that is a test lies over a `Control` edge from the test's statement into the event's; every
/// other parent, the call of the function or none in a process, lies over `ControlEntry`.
pub fn control_comes_over_edges()
    ensures { ControlComesOverEdges }
{}

/// Law: in every schedule of a valid program, whole or not and with whatever plan, the value of a local
/// cell that an event reads, where an event wrote it, comes over a `Data` edge from that event's
/// statement, of the cell's variable. A parameter comes so from the call, and a local that received a
/// value from the `Return` that gave it. An edge numbers its variable by 16 bits: the law is of the first
/// 65,536 variables of a body, which are all where no array is empty, by `variables_are_few`.
pub fn local_reads_come_over_edges()
    ensures { LocalReadsComeOverEdges }
{}

/// Law: in every schedule of a valid program, whole or not and with whatever plan, the value of a shared
/// cell that an event reads, where an event wrote it, comes over a `Data` edge from that event's
/// statement, of the cell's variable. The law is of the first 65,536 shared variables, which are all
/// where no array is empty, by `variables_are_few`.
pub fn shared_reads_come_over_edges()
    ensures { SharedReadsComeOverEdges }
{}

/// Law: so it is of every value that an event reads, where an event wrote it: it comes over a `Data`
/// edge from that event's statement, of the variable whose cell was read.
pub fn reads_come_over_edges()
    ensures { ReadsComeOverEdges }
{}

/// Law: in a valid program without an empty array there are at most 1,024 shared variables, and at most
/// 256 local ones of each body; so each has a number that an edge can name.
pub fn variables_are_few()
    ensures { VariablesAreFew }
{}
