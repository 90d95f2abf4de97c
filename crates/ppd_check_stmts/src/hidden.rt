// Values of calls and channels into places and returns, through hidden local scalars where need be.
ghost use Rattle.std.specs.Prelude.{◌≡◌, ◌++◌, [], ◌∷◌, OnOk, List, Some, ◌≤◌, ◌+◌, ◌*◌, None};
ghost use Rattle.ppd_parse.specs.declared.node.Node.{Node};
ghost use Rattle.ppd_check_stmts.specs.Code.{acts};
ghost use Rattle.ppd_check_stmts.specs.Expressions.{formula_faults, read};
ghost use Rattle.ppd_check_names.specs.Reading.{goal_formula};
ghost use Rattle.ppd_check_names.specs.Syntax.{store, give_back};
ghost use Rattle.ppd_check_stmts.specs.Statements.{after, put, spot, spot_of, goal_name, value_faults};
ghost use Rattle.ppd_check_names.specs.Frames.{with_hidden};
ghost use Rattle.ppd_check_stmts.specs.Values.{goal_said, value_said_by, IsGoal, IsValue, local_cell, through_acts, through_frame, goal_nodes, value_nodes};
ghost use Rattle.ppd_ast.specs.Term as T;
ghost use Rattle.ppd_check_stmts.specs.Code as C;
ghost use Rattle.ppd_check_stmts.specs.Writing.{Wrote, WroteSimple, WroteAct};

use crate::arrays::write_return_of;
use crate::changes::{place_of, write_assign};
use crate::formulas::put;
use crate::stores::{write_spot, write_value};
use crate::values::{Goal, Value};
use ppd_ast::{Expr, Kind, Memory, Place, Steps};
use ppd_check_names::{Frame, Here, Level, Meaning, Output, Scopes, Site, hide, put_stmt};
use std::sync::ledger::Ledger;

// The cell of a local scalar.
fn cell_of(meaning: Option<Meaning>) -> Option<u16>
    ensures { local_cell (spot (read meaning None)) ≡ result }
{
    match meaning {
        Some(Meaning::Local(cell, None)) => Some(cell),
        _ => None,
    }
}

// The cell of a place that is a local scalar.
fn local_cell<L: Ledger>(scopes: &Scopes, goal: Goal<'_>, steps: &mut Steps<L>) -> Option<u16>
    ensures value { (ns : List Node) → local_cell (spot_of scopes.now (goal_said ns goal.entry)) ≡ result }
    ensures cost { steps.new ≤ steps.old + 1 }
{
    match goal {
        Goal::Scalar(name) => cell_of(scopes.find(name.text, steps)),
        Goal::Item(_, _) => None,
    }
}

// The value of a local scalar into a place.
fn write_move<L: Ledger>(
    here: Here<'_>,
    frame: &Frame,
    goal: Goal<'_>,
    cell: u16,
    out: &mut Output,
    steps: &mut Steps<L>,
) -> Result<(), Memory>
    requires within { IsGoal here.level.source.nodes.now goal }
    ensures wrote { OnOk result (WroteAct here.entry.level.site here.entry.place (C.set (spot_of
        frame.now.scopes (goal_said here.entry.level.source.nodes.now goal.entry)) (T.local cell))
        (formula_faults frame.now.scopes (goal_formula (goal_said here.entry.level.source.nodes.now
        goal.entry))) out.old.table out.new.table out.old.row out.new.row) }
    ensures cost { steps.new ≤ steps.old + 6 * goal_nodes here.entry.level.source.nodes.now
        goal.entry + 7 }
{
    let table = &mut out.table;
    let target = write_spot(here.level.source, frame, goal, table, steps)?;
    let number = put(&mut out.table.exprs, Expr::Local(cell), steps)?;
    put_stmt(
        out,
        here.level.site,
        here.place,
        Kind::Set(target, number),
        steps,
    )
}

// The value of a call or a channel into a hidden local scalar, and from there into a place.
fn write_hidden<L: Ledger>(
    here: Here<'_>,
    goal: Goal<'_>,
    value: Value<'_>,
    frame: &mut Frame,
    out: &mut Output,
    steps: &mut Steps<L>,
) -> Result<(), Memory>
    requires goal { IsGoal here.level.source.nodes.now goal }
    requires within { IsValue here.level.source.nodes.now value }
    ensures wrote { OnOk result (Wrote here.entry.level.site.body here.entry.level.site.parent (acts
        here.entry.place (put frame.old.scopes frame.old.cells (value_said_by
        here.entry.level.source.nodes.now value.entry) ∷ C.set (spot_of frame.old.scopes (goal_said
        here.entry.level.source.nodes.now goal.entry)) (T.local frame.old.cells) ∷ [])) (formula_faults
        frame.old.scopes (goal_formula (goal_said here.entry.level.source.nodes.now goal.entry)) ++
        value_faults frame.old.scopes (value_said_by here.entry.level.source.nodes.now value.entry))
        out.old.table out.new.table out.old.row out.new.row) }
    ensures frame { OnOk result (frame.new ≡ with_hidden here.entry.place frame.old) }
    ensures cost { steps.new ≤ steps.old + 6 * goal_nodes here.entry.level.source.nodes.now
        goal.entry + 11 * value_nodes here.entry.level.source.nodes.now value.entry + 14 }
{
    let cell = hide(frame, here.place, steps)?;
    write_value(here, frame, value, cell, out, steps)?;
    write_move(here, frame, goal, cell, out, steps)
}

// The value of a call or a channel into a place.
fn write_through<L: Ledger>(
    level: Level<'_>,
    goal: Goal<'_>,
    value: Value<'_>,
    frame: &mut Frame,
    out: &mut Output,
    steps: &mut Steps<L>,
) -> Result<(), Memory>
    requires goal { IsGoal level.source.nodes.now goal }
    requires within { IsValue level.source.nodes.now value }
    ensures wrote { OnOk result (Wrote level.entry.site.body level.entry.site.parent (acts (goal_name (goal_said
        level.entry.source.nodes.now goal.entry)).place (through_acts (local_cell (spot_of frame.old.scopes (goal_said
        level.entry.source.nodes.now goal.entry))) (spot_of frame.old.scopes (goal_said level.entry.source.nodes.now
        goal.entry)) (value_said_by level.entry.source.nodes.now value.entry) frame.old)) (formula_faults
        frame.old.scopes (goal_formula (goal_said level.entry.source.nodes.now goal.entry)) ++ value_faults
        frame.old.scopes (value_said_by level.entry.source.nodes.now value.entry)) out.old.table out.new.table
        out.old.row out.new.row) }
    ensures frame { OnOk result (frame.new ≡ through_frame (local_cell (spot_of frame.old.scopes
        (goal_said level.entry.source.nodes.now goal.entry))) (goal_name (goal_said level.entry.source.nodes.now
        goal.entry)).place frame.old) }
    ensures cost { steps.new ≤ steps.old + 6 * goal_nodes level.entry.source.nodes.now
        goal.entry + 11 * value_nodes level.entry.source.nodes.now value.entry + 15 }
{
    let place = place_of(goal);
    match local_cell(&frame.scopes, goal, steps) {
        Some(cell) => write_value(Here { level, place }, frame, value, cell, out, steps),
        None => write_hidden(Here { level, place }, goal, value, frame, out, steps),
    }
}

// `p = v`
pub fn write_store<L: Ledger>(
    level: Level<'_>,
    goal: Goal<'_>,
    value: Value<'_>,
    frame: &mut Frame,
    out: &mut Output,
    steps: &mut Steps<L>,
) -> Result<(), Memory>
    requires goal { IsGoal level.source.nodes.now goal }
    requires within { IsValue level.source.nodes.now value }
    ensures wrote { OnOk result (WroteSimple level.entry.site (store (goal_said level.entry.source.nodes.now
        goal.entry) (value_said_by level.entry.source.nodes.now value.entry)) frame.old out.old.table out.new.table
        out.old.row out.new.row) }
    ensures frame { OnOk result (frame.new ≡ after (store (goal_said level.entry.source.nodes.now
        goal.entry) (value_said_by level.entry.source.nodes.now value.entry)) frame.old) }
    ensures cost { steps.new ≤ steps.old + 6 * goal_nodes level.entry.source.nodes.now
        goal.entry + 11 * value_nodes level.entry.source.nodes.now value.entry + 15 }
{
    match value {
        Value::Plain(operand) => write_assign(level, frame, goal, operand, out, steps),
        Value::Result(_) => write_through(level, goal, value, frame, out, steps),
        Value::Received(_) => write_through(level, goal, value, frame, out, steps),
    }
}

// The value of a local scalar, returned.
fn write_return_cell<L: Ledger>(
    site: Site,
    place: Place,
    cell: u16,
    out: &mut Output,
    steps: &mut Steps<L>,
) -> Result<(), Memory>
    ensures wrote { OnOk result (WroteAct site place (C.give_back (Some (T.local cell))) [] out.old.table out.new.table
        out.old.row out.new.row) }
    ensures cost { steps.new ≤ steps.old + 3 }
{
    let number = put(&mut out.table.exprs, Expr::Local(cell), steps)?;
    put_stmt(out, site, place, Kind::Return(Some(number)), steps)
}

// The value of a call or a channel into a hidden local scalar, which is returned.
fn write_return_hidden<L: Ledger>(
    here: Here<'_>,
    value: Value<'_>,
    frame: &mut Frame,
    out: &mut Output,
    steps: &mut Steps<L>,
) -> Result<(), Memory>
    requires within { IsValue here.level.source.nodes.now value }
    ensures wrote { OnOk result (Wrote here.entry.level.site.body here.entry.level.site.parent (acts
        here.entry.place (put frame.old.scopes frame.old.cells (value_said_by
        here.entry.level.source.nodes.now value.entry) ∷ C.give_back (Some (T.local frame.old.cells)) ∷
        [])) (value_faults frame.old.scopes (value_said_by here.entry.level.source.nodes.now
        value.entry)) out.old.table out.new.table out.old.row out.new.row) }
    ensures frame { OnOk result (frame.new ≡ with_hidden here.entry.place frame.old) }
    ensures cost { steps.new ≤ steps.old + 11 * value_nodes here.entry.level.source.nodes.now
        value.entry + 10 }
{
    let cell = hide(frame, here.place, steps)?;
    write_value(here, frame, value, cell, out, steps)?;
    write_return_cell(here.level.site, here.place, cell, out, steps)
}

// `return v;`
pub fn write_return_value<L: Ledger>(
    here: Here<'_>,
    value: Value<'_>,
    frame: &mut Frame,
    out: &mut Output,
    steps: &mut Steps<L>,
) -> Result<(), Memory>
    requires within { IsValue here.level.source.nodes.now value }
    ensures wrote { OnOk result (WroteSimple here.entry.level.site (give_back here.entry.place (Some (value_said_by
        here.entry.level.source.nodes.now value.entry))) frame.old out.old.table out.new.table out.old.row
        out.new.row) }
    ensures frame { OnOk result (frame.new ≡ after (give_back here.entry.place (Some (value_said_by
        here.entry.level.source.nodes.now value.entry))) frame.old) }
    ensures cost { steps.new ≤ steps.old + 11 * value_nodes here.entry.level.source.nodes.now
        value.entry + 10 }
{
    match value {
        Value::Plain(operand) => write_return_of(here, frame, operand, out, steps),
        Value::Result(_) => { write_return_hidden(here, value, frame, out, steps) }
        Value::Received(_) => { write_return_hidden(here, value, frame, out, steps) }
    }
}
