// The statements past the most that there may be.
ghost use Rattle.std.specs.Prelude.{◌≡◌, map, List, OnOk, IfOk, ◌≤◌, ◌+◌, ◌*◌, length};
ghost use Rattle.ppd_check_names.specs.Faults.{first, first_of_both};
ghost use Rattle.ppd_check.specs.Sources.{past_statements, all_stmts};
ghost use Rattle.ppd_check_stmts.specs.Code.{Code};
ghost use Rattle.ppd_check.specs.Placed.{place_of};

use ppd_ast::limits::MOST_STATEMENTS;
use ppd_ast::{Memory, Place, Steps, Stmt};
use ppd_check_names::{Cause, Fault, Limit, note};
use std::alloc::Global;
use std::sync::ledger::Ledger;

// Keeps the first fault of those found so far and of the statements at these places: the place past the most in
// source order, where there are more. The places are put in another order.
pub fn note_past<L: Ledger>(places: &mut [Place], found: &mut Option<Fault>, steps: &mut Steps<L>)
    ensures faults { found.new ≡ first_of_both found.old (first (past_statements places.old)) }
    ensures cost { steps.new ≤ steps.old + 1 }
{
    if places.len() <= MOST_STATEMENTS {
        return;
    }
    steps.tick();
    let (_, past, _) = places.select_nth_unstable_by_key(
        MOST_STATEMENTS,
        |place| (place.line, place.column),
    );
    note(found, *past, Cause::TooMany(Limit::Statements));
}

// The places of statements.
pub fn places_of<L: Ledger>(
    alloc: Global,
    stmts: &[Stmt],
    steps: &mut Steps<L>,
) -> Result<Vec<Place>, Memory>
    ensures value { IfOk result (λ places. places.items ≡ map place_of stmts.now) }
    ensures cost { steps.new ≤ steps.old + 2 * length stmts.now }
{
    let mut places = Vec::new(alloc);
    for stmt in stmts {
        steps.tick();
        steps.tick();
        if places.push(stmt.place).is_err() {
            return Err(Memory);
        }
    }
    Ok(places)
}

// Keeps the first fault of those found so far and of the statements of a table: the place past the most in source
// order, where there are more.
pub fn note_statements<L: Ledger>(
    alloc: Global,
    stmts: &[Stmt],
    found: &mut Option<Fault>,
    steps: &mut Steps<L>,
) -> Result<(), Memory>
    ensures faults { OnOk result
        ((cs : List Code) → stmts.now ≡ all_stmts 0 0 0 cs
        → found.new ≡ first_of_both found.old (first (past_statements (map place_of (all_stmts 0 0 0 cs))))) }
    ensures cost { steps.new ≤ steps.old + 2 * length stmts.now + 1 }
{
    let mut places = places_of(alloc, stmts, steps)?;
    note_past(places.as_mut_slice(), found, steps);
    Ok(())
}
