// Statements by their nodes.
ghost use Rattle.std.specs.Prelude.{◌≡◌, ◌<◌, OnOk, length, ◌≤◌, ◌+◌, ◌*◌};
ghost use Rattle.ppd_check_names.specs.Reading.{local_item, name_at, place_at, phrase, returned, formulas};
ghost use Rattle.ppd_check_names.specs.Syntax.{give_back, call};
ghost use Rattle.ppd_check_stmts.specs.Statements.{after};
ghost use Rattle.ppd_check_names.specs.Cost.{nested_below, plain_below};
ghost use Rattle.ppd_check_stmts.specs.Writing.{WroteSimple};
ghost use Rattle.ppd_check_names.specs.Nodes.{below};

use crate::arrays::{write_array, write_return};
use crate::hidden::write_return_value;
use crate::stores::{write_call, write_fresh};
use crate::values::{Value, value_at};
use ppd_ast::{Memory, Steps};
use ppd_check_names::{Frame, Here, Level, Operand, Output, kind_at, label_at, place_at, size_at};
use ppd_parse::Kind;
use std::sync::ledger::Ledger;

// What a node of a declaration says.
pub fn write_local_item<L: Ledger>(
    level: Level<'_>,
    id: u32,
    frame: &mut Frame,
    out: &mut Output,
    steps: &mut Steps<L>,
) -> Result<(), Memory>
    requires within { id < length level.source.nodes.now }
    ensures wrote { OnOk result (WroteSimple level.entry.site (local_item
        (below level.entry.source id)) frame.old out.old.table out.new.table out.old.row out.new.row) }
    ensures frame { OnOk result (frame.new ≡ after (local_item (below level.entry.source id))
        frame.old) }
    ensures cost { steps.new ≤ steps.old + 11 * plain_below level.entry.source.nodes.now id + 10 }
{
    let name = label_at(level.source, id, 0);
    let zero = Value::Plain(Operand::Constant(0));
    match kind_at(level.source, id, 1) {
        Kind::LeftBracket => {
            let size = size_at(level.source, id, 2);
            write_array(level.site, name, size, frame, out, steps)
        }
        Kind::AssignMark => {
            let value = value_at(level.source, id, 2);
            write_fresh(level, name, value, frame, out, steps)
        }
        _ => write_fresh(level, name, zero, frame, out, steps),
    }
}

// `return;` and `return v;`
pub fn write_returned<L: Ledger>(
    level: Level<'_>,
    id: u32,
    frame: &mut Frame,
    out: &mut Output,
    steps: &mut Steps<L>,
) -> Result<(), Memory>
    requires within { id < length level.source.nodes.now }
    ensures wrote { OnOk result (WroteSimple level.entry.site (give_back (place_at (below level.entry.source id) 0)
        (returned (phrase (below level.entry.source id) 1))) frame.old out.old.table out.new.table out.old.row
        out.new.row) }
    ensures frame { OnOk result (frame.new ≡ after (give_back (place_at (below level.entry.source id) 0)
        (returned (phrase (below level.entry.source id) 1))) frame.old) }
    ensures cost { steps.new ≤ steps.old + 11 * plain_below level.entry.source.nodes.now id + 10 }
{
    let place = place_at(level.source, id, 0);
    match kind_at(level.source, id, 1) {
        Kind::Semicolon => write_return(level.site, place, out, steps),
        _ => {
            let value = value_at(level.source, id, 1);
            write_return_value(Here { level, place }, value, frame, out, steps)
        }
    }
}

// A call as a statement.
pub fn write_called<L: Ledger>(
    level: Level<'_>,
    frame: &Frame,
    id: u32,
    out: &mut Output,
    steps: &mut Steps<L>,
) -> Result<(), Memory>
    requires within { id < length level.source.nodes.now }
    ensures wrote { OnOk result (WroteSimple level.entry.site (call (name_at (below level.entry.source id) 0)
        (formulas (below level.entry.source id))) frame.now out.old.table out.new.table out.old.row out.new.row) }
    ensures cost { steps.new ≤ steps.old + 11 * plain_below level.entry.source.nodes.now id + 11
        * nested_below level.entry.source.nodes.now id + 3 }
{
    let place = label_at(level.source, id, 0).place;
    write_call(Here { level, place }, frame, id, None, out, steps)
}
