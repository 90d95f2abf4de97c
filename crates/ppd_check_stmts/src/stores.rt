// Values into local scalars and other places.
ghost use Rattle.std.specs.Prelude.{◌≡◌, ◌<◌, ◌++◌, [], ◌∷◌, OnOk, IfOk, length, map, is_some, ℕ, ◌≤◌, ◌+◌, ◌*◌, None, Some};
ghost use Rattle.ppd_check_names.specs.declared.meaning.Use.TheVariants.{Function, Channel};
ghost use Rattle.ppd_check_names.specs.Nodes.{label_name, below, operand_formula, IsOperand};
ghost use Rattle.ppd_check_names.specs.Reading.{name_at, formulas, goal_formula};
ghost use Rattle.ppd_check_names.specs.Syntax.{fresh};
ghost use Rattle.ppd_check_names.specs.Names.{meaning, number_as};
ghost use Rattle.ppd_check_names.specs.Faults.{first, first_of_both};
ghost use Rattle.ppd_check_stmts.specs.Expressions.{term_of, formula_faults, call_faults, name_faults, read};
ghost use Rattle.ppd_ast.specs.Term.{Term};
ghost use Rattle.ppd_check_stmts.specs.Statements.{put, value_faults, after, spot, spot_of};
ghost use Rattle.ppd_check_stmts.specs.Table.{flats, root, spot_terms, target};
ghost use Rattle.ppd_check_stmts.specs.Forms.{Added};
ghost use Rattle.ppd_check_stmts.specs.Values.{goal_said, value_said_by, IsGoal, IsValue, goal_nodes, value_nodes};
ghost use Rattle.ppd_check_names.specs.Cost.{nested_below, plain_below, operand_nodes};
ghost use Rattle.ppd_check_stmts.specs.Code as C;
ghost use Rattle.ppd_check_stmts.specs.Writing.{WroteSimple, WroteAct};

use crate::calls::{arguments, channel_number, function, used};
use crate::formulas::{element_expr, formula, put, scalar_expr, write_term};
use crate::values::{Goal, Value};
use ppd_ast::{Ids, Kind, Memory, Steps, Target};
use ppd_check_names::{
    Frame, Here, Label, Level, Meaning, Operand, Output, Source, Use, Writer, declare, label_at,
    put_stmt,
};
use std::sync::ledger::Ledger;

// The call at a node, whose value is used where a cell receives it.
pub fn write_call<L: Ledger>(
    here: Here<'_>,
    frame: &Frame,
    id: u32,
    into: Option<u16>,
    out: &mut Output,
    steps: &mut Steps<L>,
) -> Result<(), Memory>
    requires within { id < length here.level.source.nodes.now }
    ensures wrote { OnOk result (WroteAct here.entry.level.site here.entry.place (C.call (number_as Function (meaning
        frame.now.scopes (name_at (below here.entry.level.source id) 0).text)) (map (term_of
        frame.now.scopes) (formulas (below here.entry.level.source id))) into) (call_faults
        frame.now.scopes (is_some into) (name_at (below here.entry.level.source id) 0) (formulas (below
        here.entry.level.source id))) out.old.table out.new.table out.old.row out.new.row) }
    ensures cost { steps.new ≤ steps.old + 11 * plain_below here.entry.level.source.nodes.now id
        + 11 * nested_below here.entry.level.source.nodes.now id + 3 }
{
    let name = label_at(here.level.source, id, 0);
    let mut args = Ids::new(frame.scopes.alloc());
    arguments(
        here.level.source,
        frame,
        id,
        &mut out.table,
        &mut args,
        steps,
    )?;
    let number = function(
        &frame.scopes,
        name,
        args.len(),
        into.is_some(),
        &mut out.table.found,
        steps,
    );
    put_stmt(
        out,
        here.level.site,
        here.place,
        Kind::Call {
            function: number,
            args,
            into,
        },
        steps,
    )
}

// The value of an expression into a local scalar.
fn write_set<L: Ledger>(
    here: Here<'_>,
    frame: &Frame,
    operand: Operand,
    cell: u16,
    out: &mut Output,
    steps: &mut Steps<L>,
) -> Result<(), Memory>
    requires within { IsOperand here.level.source.nodes.now operand }
    ensures wrote { OnOk result (WroteAct here.entry.level.site here.entry.place (C.set (C.local cell) (term_of
        frame.now.scopes (operand_formula here.entry.level.source.nodes.now operand))) (formula_faults
        frame.now.scopes (operand_formula here.entry.level.source.nodes.now operand)) out.old.table out.new.table
        out.old.row out.new.row) }
    ensures cost { steps.new ≤ steps.old + 6 * operand_nodes here.entry.level.source.nodes.now operand + 5 }
{
    let table = &mut out.table;
    let number = write_term(here.level.source, frame, operand, table, steps)?;
    let kind = Kind::Set(Target::Local(cell), number);
    put_stmt(out, here.level.site, here.place, kind, steps)
}

// What a channel gives into a local scalar.
fn write_received<L: Ledger>(
    here: Here<'_>,
    frame: &Frame,
    name: Label<'_>,
    cell: u16,
    out: &mut Output,
    steps: &mut Steps<L>,
) -> Result<(), Memory>
    ensures wrote { OnOk result (WroteAct here.entry.level.site here.entry.place (C.receive (number_as Channel (meaning
        frame.now.scopes name.entry.text.now)) cell) (name_faults Channel frame.now.scopes (label_name name.entry))
        out.old.table out.new.table out.old.row out.new.row) }
    ensures cost { steps.new ≤ steps.old + 3 }
{
    let found = &mut out.table.found;
    let meaning = used(&frame.scopes, name, Use::Channel, found, steps);
    let kind = Kind::Recv(channel_number(meaning), cell);
    put_stmt(out, here.level.site, here.place, kind, steps)
}

// A value into a local scalar.
pub fn write_value<L: Ledger>(
    here: Here<'_>,
    frame: &Frame,
    value: Value<'_>,
    cell: u16,
    out: &mut Output,
    steps: &mut Steps<L>,
) -> Result<(), Memory>
    requires within { IsValue here.level.source.nodes.now value }
    ensures wrote { OnOk result (WroteAct here.entry.level.site here.entry.place (put frame.now.scopes cell
        (value_said_by here.entry.level.source.nodes.now value.entry)) (value_faults frame.now.scopes (value_said_by
        here.entry.level.source.nodes.now value.entry)) out.old.table out.new.table out.old.row out.new.row) }
    ensures cost { steps.new ≤ steps.old + 11 * value_nodes here.entry.level.source.nodes.now
        value.entry + 5 }
{
    match value {
        Value::Plain(operand) => write_set(here, frame, operand, cell, out, steps),
        Value::Result(id) => write_call(here, frame, id, Some(cell), out, steps),
        Value::Received(name) => write_received(here, frame, name, cell, out, steps),
    }
}

// A declared scalar with its value.
#[tactic(auto, using(ppd_check_names::proofs::Found::First::found_in_both))]
pub fn write_fresh<L: Ledger>(
    level: Level<'_>,
    label: Label<'_>,
    value: Value<'_>,
    frame: &mut Frame,
    out: &mut Output,
    steps: &mut Steps<L>,
) -> Result<(), Memory>
    requires within { IsValue level.source.nodes.now value }
    ensures wrote { OnOk result (WroteSimple level.entry.site (fresh (label_name label.entry) (value_said_by
        level.entry.source.nodes.now value.entry)) frame.old out.old.table out.new.table out.old.row out.new.row) }
    ensures frame { OnOk result (frame.new ≡ after (fresh (label_name label.entry) (value_said_by
        level.entry.source.nodes.now value.entry)) frame.old) }
    ensures cost { steps.new ≤ steps.old + 11 * value_nodes level.entry.source.nodes.now
        value.entry + 10 }
{
    let cell = frame.cells;
    declare(frame, label, None, &mut out.table.found, steps)?;
    write_value(
        Here {
            level,
            place: label.place,
        },
        frame,
        value,
        cell,
        out,
        steps,
    )
}

// The place that a value is stored to, whose index has its expressions added.
pub fn write_spot<L: Ledger>(
    source: Source<'_>,
    frame: &Frame,
    goal: Goal<'_>,
    table: &mut Writer,
    steps: &mut Steps<L>,
) -> Result<Target, Memory>
    requires within { IsGoal source.nodes.now goal }
    ensures added { OnOk result (table.new.exprs ≡ table.old.exprs ++ flats (length table.old.exprs) (spot_terms
        (spot_of frame.now.scopes (goal_said source.entry.nodes.now goal.entry)))) }
    ensures target { IfOk result (λ t. t ≡ target (length table.old.exprs) (spot_of frame.now.scopes (goal_said
        source.entry.nodes.now goal.entry))) }
    ensures faults { OnOk result (table.new.found ≡ first_of_both table.old.found (first (formula_faults
        frame.now.scopes (goal_formula (goal_said source.entry.nodes.now goal.entry))))) }
    ensures stmts { table.new.stmts ≡ table.old.stmts }
    ensures cost { steps.new ≤ steps.old + 6 * goal_nodes source.entry.nodes.now goal.entry + 4 }
{
    match goal {
        Goal::Scalar(name) => {
            let meaning = used(&frame.scopes, name, Use::Scalar, &mut table.found, steps);
            Ok(scalar_target(meaning))
        }
        Goal::Item(name, index) => {
            let meaning = used(&frame.scopes, name, Use::Element, &mut table.found, steps);
            let at = write_term(source, frame, index, table, steps)?;
            Ok(element_target(meaning, at))
        }
    }
}

// The target of a scalar.
fn scalar_target(meaning: Option<Meaning>) -> Target
    ensures target { (m : ℕ) → target m (spot (read meaning None)) ≡ result }
    ensures terms { spot_terms (spot (read meaning None)) ≡ [] }
{
    match meaning {
        Some(Meaning::Local(cell, None)) => Target::Local(cell),
        Some(Meaning::Shared(cell, None)) => Target::Shared(cell),
        _ => Target::Shared(0),
    }
}

// The target of an element, whose index has number `at`.
fn element_target(meaning: Option<Meaning>, at: u32) -> Target
    ensures target { (m : ℕ) (i : Term) → at ≡ root m i → target m (spot (read meaning (Some i))) ≡ result }
    ensures terms { (i : Term) → spot_terms (spot (read meaning (Some i))) ≡ i ∷ [] }
{
    match meaning {
        Some(Meaning::Local(base, Some(len))) => Target::LocalAt { base, len, at },
        Some(Meaning::Shared(base, Some(len))) => Target::SharedAt { base, len, at },
        _ => Target::SharedAt {
            base: 0,
            len: 0,
            at,
        },
    }
}

// The expression that reads a place where a value is stored; what is wrong with it is noted where it is written.
pub fn write_goal<L: Ledger>(
    source: Source<'_>,
    frame: &Frame,
    goal: Goal<'_>,
    table: &mut Writer,
    steps: &mut Steps<L>,
) -> Result<u32, Memory>
    requires within { IsGoal source.nodes.now goal }
    ensures added { IfOk result (λ n. Added table.old.exprs (term_of frame.now.scopes (goal_formula (goal_said
        source.entry.nodes.now goal.entry))) table.new.exprs n) }
    ensures stmts { table.new.stmts ≡ table.old.stmts }
    ensures found { table.new.found ≡ table.old.found }
    ensures cost { steps.new ≤ steps.old + 6 * goal_nodes source.entry.nodes.now goal.entry + 5 }
{
    let scopes = &frame.scopes;
    let exprs = &mut table.exprs;
    let mut again = None;
    match goal {
        Goal::Scalar(name) => {
            let meaning = used(scopes, name, Use::Scalar, &mut again, steps);
            put(exprs, scalar_expr(meaning), steps)
        }
        Goal::Item(name, index) => {
            let meaning = used(scopes, name, Use::Element, &mut again, steps);
            let at = formula(source, scopes, index, exprs, &mut again, steps)?;
            put(exprs, element_expr(meaning, at), steps)
        }
    }
}
