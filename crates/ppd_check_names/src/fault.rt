// The rules that a source can break.
ghost use Rattle.std.specs.Prelude.{◌≡◌, Some, not};
ghost use Rattle.std.specs.Ordering.{is_lt};
ghost use Rattle.ppd_check_names.specs.Faults.{order, first, first_of_both, if_so};

use ppd_ast::Place;

/// What a source can have too many of, in the order in which they are answered at one place.
#[derive(Clone, Copy, PartialEq, Eq, PartialOrd, Ord)]
pub enum Limit {
    /// More than 4,096 core statements.
    Statements,
    /// More than 256 functions.
    Functions,
    /// More than 16 processes.
    Processes,
    /// More than 64 semaphores.
    Semaphores,
    /// More than 64 channels.
    Channels,
    /// More than 1,024 shared cells.
    Shared,
    /// More than 256 cells of a body.
    Locals,
}

/// A rule that a source can break, in the order of their numbers.
#[derive(Clone, Copy, PartialEq, Eq, PartialOrd, Ord)]
pub enum Cause {
    Twice,
    Unknown,
    WrongKind,
    Arity,
    ReturnPlace,
    VoidValue,
    NoProcess,
    TooMany(Limit),
    BadSize,
}

/// A broken rule and its place. Broken rules are ordered by their places, then in the rules' order.
#[derive(Clone, Copy, PartialEq, Eq, PartialOrd, Ord)]
pub struct Fault {
    pub place: Place,
    pub cause: Cause,
}

impl Fault {
    // Whether it stands before another: by line, column and the rule's number.
    fn is_before(&self, other: &Fault) -> bool
        ensures { result ≡ is_lt (order self.now other.now) }
    {
        self < other
    }
}

/// Keeps the first fault of those found so far and this one.
pub fn note(found: &mut Option<Fault>, place: Place, cause: Cause)
    ensures { found.new ≡ first_of_both found.old (Some (record { place = place; cause = cause })) }
{
    let fault = Fault { place, cause };
    match found {
        Some(old) if !fault.is_before(old) => {}
        _ => *found = Some(fault),
    }
}

/// Notes a rule unless the test holds.
#[tactic(auto, using(crate::proofs::Found::First::first_of_both_none))]
pub fn note_unless(found: &mut Option<Fault>, holds: bool, place: Place, cause: Cause)
    ensures { found.new ≡ first_of_both found.old (first (if_so (not holds) place cause)) }
{
    if !holds {
        note(found, place, cause);
    }
}

/// Notes a rule where the test holds.
#[tactic(auto, using(crate::proofs::Found::First::first_of_both_none))]
pub fn note_if(found: &mut Option<Fault>, holds: bool, place: Place, cause: Cause)
    ensures { found.new ≡ first_of_both found.old (first (if_so holds place cause)) }
{
    if holds {
        note(found, place, cause);
    }
}
