// Declared local arrays, and returns of what an expression gives.
ghost use Rattle.std.specs.Prelude.{◌≡◌, [], OnOk, None, Some, ◌≤◌, ◌+◌, ◌*◌};
ghost use Rattle.ppd_check_names.specs.Nodes.{operand_formula, IsOperand, label_name};
ghost use Rattle.ppd_check_names.specs.Syntax.{array, give_back, plain};
ghost use Rattle.ppd_check_stmts.specs.Statements.{after};
ghost use Rattle.ppd_check_names.specs.Cost.{operand_nodes};
ghost use Rattle.ppd_check_stmts.specs.Writing.{WroteSimple, WroteAct};
ghost use Rattle.ppd_check_stmts.specs.Code as C;

use crate::formulas::write_term;
use ppd_ast::limits::MOST_LOCAL_CELLS;
use ppd_ast::{Kind, Memory, Place, Steps};
use ppd_check_names::{
    Cause, Frame, Here, Label, Number, Operand, Output, Site, as_short, declare, is_within,
    note_unless, put_stmt,
};
use std::sync::ledger::Ledger;

// A declared local array.
#[tactic(auto, using(ppd_check_names::proofs::Found::First::found_in_both))]
pub fn write_array<L: Ledger>(
    site: Site,
    label: Label<'_>,
    size: Number,
    frame: &mut Frame,
    out: &mut Output,
    steps: &mut Steps<L>,
) -> Result<(), Memory>
    ensures wrote { OnOk result (WroteSimple site (array (label_name label.entry)
        size) frame.old out.old.table out.new.table out.old.row out.new.row) }
    ensures frame { OnOk result (frame.new ≡ after (array (label_name label.entry) size)
        frame.old) }
    ensures cost { steps.new ≤ steps.old + 7 }
{
    let base = frame.cells;
    let len = as_short(size.value);
    declare(frame, label, Some(len), &mut out.table.found, steps)?;
    let fits = is_within(1, size.value, MOST_LOCAL_CELLS as u64);
    note_unless(&mut out.table.found, fits, size.place, Cause::BadSize);
    put_stmt(out, site, label.place, Kind::Zero { base, len }, steps)
}

// `return;`
pub fn write_return<L: Ledger>(
    site: Site,
    place: Place,
    out: &mut Output,
    steps: &mut Steps<L>,
) -> Result<(), Memory>
    ensures wrote { OnOk result (WroteAct site place (C.give_back None) [] out.old.table out.new.table out.old.row
        out.new.row) }
    ensures cost { steps.new ≤ steps.old + 2 }
{
    put_stmt(out, site, place, Kind::Return(None), steps)
}

// `return e;`
pub fn write_return_of<L: Ledger>(
    here: Here<'_>,
    frame: &Frame,
    operand: Operand,
    out: &mut Output,
    steps: &mut Steps<L>,
) -> Result<(), Memory>
    requires within { IsOperand here.level.source.nodes.now operand }
    ensures wrote { OnOk result (WroteSimple here.entry.level.site (give_back here.entry.place (Some (plain
        (operand_formula here.entry.level.source.nodes.now operand)))) frame.now out.old.table out.new.table
        out.old.row out.new.row) }
    ensures cost { steps.new ≤ steps.old + 6 * operand_nodes here.entry.level.source.nodes.now
        operand + 5 }
{
    let table = &mut out.table;
    let number = write_term(here.level.source, frame, operand, table, steps)?;
    put_stmt(
        out,
        here.level.site,
        here.place,
        Kind::Return(Some(number)),
        steps,
    )
}
