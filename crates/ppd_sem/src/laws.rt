ghost use Rattle.ppd_sem.specs.Laws.{ArgumentsComeFirst, ArithmeticIsExact, DividesTowardZero, IndexComesFirst, NeedsAreThere, OffersAreCompleted, ReadsAreAnswers, StepsEnd, StopsEarly, ValidCanRun, ValidIsNumbered};
ghost use Rattle.ppd_sem.specs.Printed.{PrintsAreNotRead};

// Laws of what the other calls give: each is the contract of a function that does nothing.

/// Sums, differences, products and opposites are exact, or overflow.
#[tactic(auto, using(crate::proofs::Lawful::arithmetic))]
pub fn arithmetic_is_exact()
    ensures { ArithmeticIsExact }
{}

/// Division is toward zero, and traps at a zero divisor and at the least number by -1.
#[tactic(auto, using(crate::proofs::Lawful::division))]
pub fn divides_toward_zero()
    ensures { DividesTowardZero }
{}

/// An index is tested before the stored value is evaluated.
#[tactic(auto, using(crate::proofs::Lawful::index_first))]
pub fn index_comes_first()
    ensures { IndexComesFirst }
{}

/// `&&` and `||` read nothing past their stop.
#[tactic(auto, using(crate::proofs::Lawful::stops))]
pub fn stops_early()
    ensures { StopsEarly }
{}

/// The arguments of a call come before the test of its depth.
#[tactic(auto, using(crate::proofs::Lawful::arguments_first))]
pub fn arguments_come_first()
    ensures { ArgumentsComeFirst }
{}

/// The processes of a valid program can run.
#[tactic(auto, using(crate::proofs::Lawful::can_run))]
pub fn valid_can_run()
    ensures { ValidCanRun }
{}

/// The blocks and units of a plan that is valid for a valid program have numbers of 16 bits.
#[tactic(auto, using(crate::proofs::Lawful::is_numbered))]
pub fn valid_is_numbered()
    ensures { ValidIsNumbered }
{}

/// Each step leaves fewer steps to take, within the budget.
pub fn steps_end()
    ensures { StepsEnd }
{}

/// In every state of a valid program a need names only cells, semaphores and channels that are there.
#[tactic(auto, using(crate::proofs::Lawful::named))]
pub fn needs_are_there()
    ensures { NeedsAreThere }
{}

/// The shared reads of an expression or a statement are exactly the answers that its evaluation
/// takes, each of the cell that was wanted, in order.
#[tactic(auto, using(crate::proofs::Consumed::reads_taken))]
pub fn reads_are_answers()
    ensures { ReadsAreAnswers }
{}

/// An offer and its completion, on a channel of capacity 0, are steps of one statement with no step
/// of its process between them. After the offer the process needs the completion of the same
/// statement, or its budget is too small for it; the step before a completion was the offer.
#[tactic(auto, using(crate::proofs::Offering::offers_completed))]
pub fn offers_are_completed()
    ensures { OffersAreCompleted }
{}

/// What a process needs and what its step does depend on nothing that it printed.
pub fn prints_are_not_read()
    ensures { PrintsAreNotRead }
{}
