ghost use Rattle.law_steps.specs.Steps.{EndsAreLast, NeverRunsOut, ReadsItsCells, StartsOnCourse, StaysOnCourse, StepsLead};
ghost use Rattle.law_steps.specs.Units.{IsLastOfLog, ReadsLieInCells};
ghost use Rattle.law_steps.specs.Policies.{PolicyLogsArePaid, PolicyStepsCostWhatTheyWrite};

// Laws of what the other calls give: each is the contract of a function that does nothing.

/// A process of a valid program begins on course: what it has to do lies along the flow graph, from
/// the first statement of its body on, which is not entered yet where it is a block loop.
pub fn starts_on_course()
    ensures { StartsOnCourse }
{}

/// In a valid program no step of a process leaves the course, whatever answer it gets.
pub fn stays_on_course()
    ensures { StaysOnCourse }
{}

/// In a valid program a step of a process on course leads to a successor of its statement in the same
/// unit, or to where the unit begins whose start its need names: behind its statement, behind the call
/// from which it returns, at the first statement of the function that it calls, or at the test of the
/// block loop that it enters. After a read it is at the same statement; a trap, the end and a spent
/// budget stop it.
pub fn steps_lead()
    ensures { StepsLead }
{}

/// A shared cell that a step reads is one that its statement may read.
pub fn reads_its_cells()
    ensures { ReadsItsCells }
{}

/// A process of a valid program never runs out of statements: until it ends, traps or has spent its
/// budget, the last statement that it has to do is its `End`, and it needs something.
pub fn never_runs_out()
    ensures { NeverRunsOut }
{}

/// In a valid program nothing follows a `Return` or an `End`.
pub fn ends_are_last()
    ensures { EndsAreLast }
{}

/// Law: the unit in force after the steps of a process is that of the last Unit entry of its log.
pub fn unit_in_force_is_logged()
    ensures { IsLastOfLog }
{}

/// Law: in a run of a valid program, with the plan of a policy, each shared cell that a process
/// reads is among the cells of the unit in force: the unit that its latest step before the read
/// that started one started, and the unit of its body's entry where none did. This holds for every
/// schedule, whole or not, and for every policy and budget.
pub fn reads_lie_in_cells()
    ensures { ReadsLieInCells }
{}

/// Law: under the plan of a valid policy each step of a valid program costs 1 and the count of the values in
/// the prelog, unit and postlog entries that it writes, within the budget, and a stop for the budget nothing;
/// so a process has spent its steps and the values of its log, but for the two entries written at the start.
pub fn policy_steps_cost_what_they_write()
    ensures steps { PolicyStepsCostWhatTheyWrite }
    ensures logs { PolicyLogsArePaid }
{}
