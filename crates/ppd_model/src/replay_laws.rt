ghost use Rattle.ppd_model.specs.Ending.{ReplaysEndByTurns, TurnsEnd};
ghost use Rattle.ppd_model.specs.ReplayLaws.{FailuresDiffer, ReplaysAreWithinBudget, TurnsAreSteps, TurnsSuffice};

/// Law: each turn of a replay that goes on takes exactly one step of its process, which the
/// counter of steps counts and the process pays for; the last turn takes one step or none. So the
/// count that a replay answers is that of the steps that it took.
pub fn replays_count_their_steps()
    ensures { TurnsAreSteps }
{}

/// Law: a replay takes no more steps than its budget has, and the definition gives it turns
/// enough: any count of turns that is more than the budget comes to the same.
pub fn replays_are_within_budget()
    ensures steps { ReplaysAreWithinBudget }
    ensures turns { TurnsSuffice }
{}

/// Law: where a replay fails, what it found is not what it wanted, but where both are the end by
/// one trap.
pub fn failures_differ()
    ensures { FailuresDiffer }
{}

/// Law: a replay is never out of turns. It is over with its first unit, or some turns go on and the one
/// after them ends it; so it is with any count of turns that is more than what is left of the budget.
pub fn replays_end_by_turns()
    ensures replays { ReplaysEndByTurns }
    ensures turns { TurnsEnd }
{}
