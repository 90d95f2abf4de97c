// Returns at the end of a body, and where none may stand.
ghost use Rattle.std.specs.Prelude.{◌≡◌, ◌-◌, [], ◌++◌, OnOk, drop, length, take, not, ◌&&◌, ◌||◌, ◌≤◌, ◌+◌};
ghost use Rattle.std.specs.List.{flat_map};
ghost use Rattle.ppd_check.specs.Endings.{returned, function_returns, body_returns, close_by};
ghost use Rattle.ppd_check_names.specs.declared.fault.Cause.TheVariants.{ReturnPlace};
ghost use Rattle.ppd_check_names.specs.Faults.{first, first_of_both, if_so};
ghost use Rattle.ppd_check_stmts.specs.Writing.{Wrote};

use crate::endings::{Closing, Ending};
use ppd_ast::{Kind, Memory, Place, Steps, Stmt};
use ppd_check_names::{Cause, Fault, Output, Site, note, note_if, note_unless, put_stmt};
use std::sync::ledger::Ledger;

// The statements from a number on.
pub fn from_on(stmts: &[Stmt], from: usize) -> &[Stmt]
    ensures { result.now ≡ drop from stmts.now }
{
    if from <= stmts.len() {
        &stmts[from..]
    } else {
        &[]
    }
}

// The statements but the last.
fn but_last(stmts: &[Stmt]) -> &[Stmt]
    ensures { result.now ≡ take (length stmts.now - 1) stmts.now }
{
    if stmts.is_empty() {
        stmts
    } else {
        &stmts[..stmts.len() - 1]
    }
}

// Notes a statement that is a `return`.
fn note_return(stmt: &Stmt, found: &mut Option<Fault>)
    ensures { found.new ≡ first_of_both found.old (first (returned stmt.now)) }
{
    match stmt.kind {
        Kind::Return(_) => note(found, stmt.place, Cause::ReturnPlace),
        _ => {}
    }
}

// Notes each `return` among statements.
fn note_returns<L: Ledger>(stmts: &[Stmt], found: &mut Option<Fault>, steps: &mut Steps<L>)
    ensures faults { found.new ≡ first_of_both found.old (first (flat_map returned stmts.now)) }
    ensures cost { steps.new ≤ steps.old + length stmts.now }
{
    for stmt in stmts {
        steps.tick();
        note_return(stmt, found);
    }
}

// Whether a `return` with a value or without one fits a function that gives a value or none.
fn fits(value: bool, gives: bool) -> bool
    ensures { result ≡ (value && gives || not value && not gives) }
{
    if value { gives } else { !gives }
}

// Notes the returns of a function but the last one, and that one with or without a value where the other is asked.
#[tactic(auto, using(ppd_check_names::proofs::Found::First::found_in_both))]
fn note_ended<L: Ledger>(
    stmts: &[Stmt],
    place: Place,
    value: bool,
    gives: bool,
    found: &mut Option<Fault>,
    steps: &mut Steps<L>,
)
    ensures faults { found.new
        ≡ first_of_both found.old
        (first (flat_map returned (take (length stmts.now - 1) stmts.now)
        ++ if_so (not (value && gives || not value && not gives)) place ReturnPlace)) }
    ensures cost { steps.new ≤ steps.old + length stmts.now }
{
    note_returns(but_last(stmts), found, steps);
    note_unless(found, fits(value, gives), place, Cause::ReturnPlace);
}

// Notes the returns of a function that does not end with one, and its closing brace where it should.
#[tactic(auto, using(ppd_check_names::proofs::Found::First::found_in_both))]
fn note_unended<L: Ledger>(
    stmts: &[Stmt],
    gives: bool,
    close: Place,
    found: &mut Option<Fault>,
    steps: &mut Steps<L>,
)
    ensures faults { found.new
        ≡ first_of_both found.old (first (flat_map returned stmts.now ++ if_so gives close ReturnPlace)) }
    ensures cost { steps.new ≤ steps.old + length stmts.now }
{
    note_returns(stmts, found, steps);
    note_if(found, gives, close, Cause::ReturnPlace);
}

// Notes the returns of a function that may not stand where they do.
fn note_function<L: Ledger>(
    stmts: &[Stmt],
    ending: Ending,
    gives: bool,
    close: Place,
    found: &mut Option<Fault>,
    steps: &mut Steps<L>,
)
    ensures faults { found.new ≡ first_of_both found.old (first (function_returns gives close ending stmts.now)) }
    ensures cost { steps.new ≤ steps.old + length stmts.now }
{
    match ending {
        Ending::Return(place, value) => note_ended(stmts, place, value, gives, found, steps),
        Ending::Empty => note_unended(stmts, gives, close, found, steps),
        Ending::Other => note_unended(stmts, gives, close, found, steps),
    }
}

// Notes the returns of a body that may not stand where they do; a process has none.
pub fn note_body<L: Ledger>(
    stmts: &[Stmt],
    closing: Closing,
    process: bool,
    gives: bool,
    found: &mut Option<Fault>,
    steps: &mut Steps<L>,
)
    ensures faults { found.new ≡ first_of_both found.old (first (body_returns process gives closing.close
        closing.ending stmts.now)) }
    ensures cost { steps.new ≤ steps.old + length stmts.now }
{
    if process {
        note_returns(stmts, found, steps);
    } else {
        note_function(stmts, closing.ending, gives, closing.close, found, steps);
    }
}

// What stands at the closing brace: the end of a process, or a `return` where a function has none there.
pub fn write_close<L: Ledger>(
    site: Site,
    process: bool,
    closing: Closing,
    out: &mut Output,
    steps: &mut Steps<L>,
) -> Result<(), Memory>
    ensures wrote { OnOk result (Wrote site.body site.parent (close_by process closing.ending closing.close) []
        out.old.table out.new.table out.old.row out.new.row) }
    ensures cost { steps.new ≤ steps.old + 2 }
{
    if process {
        return put_stmt(out, site, closing.close, Kind::End, steps);
    }
    match closing.ending {
        Ending::Return(_, _) => Ok(()),
        _ => put_stmt(out, site, closing.close, Kind::Return(None), steps),
    }
}
