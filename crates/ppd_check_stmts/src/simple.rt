// Statements without statements inside them.
ghost use Rattle.std.specs.Prelude.{◌<◌, OnOk, length, ◌≤◌, ◌+◌, ◌*◌};
ghost use Rattle.ppd_check_names.specs.Reading.{place_at, name_at, formula_at};
ghost use Rattle.ppd_check_names.specs.Syntax.{send};
ghost use Rattle.ppd_check_names.specs.Cost.{plain_below};
ghost use Rattle.ppd_check_stmts.specs.Writing.{WroteSimple};
ghost use Rattle.ppd_check_names.specs.Nodes.{below};
ghost use Rattle.ppd_check_stmts.specs.Plain.{signalled, shown};

use crate::calls::{channel_number, semaphore_number, used};
use crate::formulas::write_term;
use ppd_ast::{Kind, Memory, Steps};
use ppd_check_names::{Frame, Level, Output, Use, label_at, operand_at, place_at, put_stmt};
use std::sync::ledger::Ledger;

// The statements on semaphores.
#[derive(Clone, Copy)]
pub enum Signal {
    Take,
    Give,
}

// The statements that read an expression alone.
#[derive(Clone, Copy)]
pub enum Showing {
    Print,
    Assert,
}

// `P(s);` and `V(s);`
pub fn write_signal<L: Ledger>(
    level: Level<'_>,
    frame: &Frame,
    id: u32,
    signal: Signal,
    out: &mut Output,
    steps: &mut Steps<L>,
) -> Result<(), Memory>
    requires within { id < length level.source.nodes.now }
    ensures wrote { OnOk result (WroteSimple level.entry.site (signalled signal (place_at (below level.entry.source id)
        0) (name_at (below level.entry.source id) 2)) frame.now out.old.table out.new.table out.old.row out.new.row) }
    ensures cost { steps.new ≤ steps.old + 3 }
{
    let place = place_at(level.source, id, 0);
    let name = label_at(level.source, id, 2);
    let meaning = used(
        &frame.scopes,
        name,
        Use::Semaphore,
        &mut out.table.found,
        steps,
    );
    let number = semaphore_number(meaning);
    match signal {
        Signal::Take => put_stmt(out, level.site, place, Kind::P(number), steps),
        Signal::Give => put_stmt(out, level.site, place, Kind::V(number), steps),
    }
}

// `print(e);` and `assert(e);`
pub fn write_shown<L: Ledger>(
    level: Level<'_>,
    frame: &Frame,
    id: u32,
    showing: Showing,
    out: &mut Output,
    steps: &mut Steps<L>,
) -> Result<(), Memory>
    requires within { id < length level.source.nodes.now }
    ensures wrote { OnOk result (WroteSimple level.entry.site (shown showing (place_at (below level.entry.source id) 0)
        (formula_at (below level.entry.source id) 2)) frame.now out.old.table out.new.table out.old.row out.new.row) }
    ensures cost { steps.new ≤ steps.old + 6 * plain_below level.entry.source.nodes.now id + 5 }
{
    let place = place_at(level.source, id, 0);
    let operand = operand_at(level.source, id, 2);
    let table = &mut out.table;
    let number = write_term(level.source, frame, operand, table, steps)?;
    match showing {
        Showing::Print => put_stmt(out, level.site, place, Kind::Print(number), steps),
        Showing::Assert => put_stmt(out, level.site, place, Kind::Assert(number), steps),
    }
}

// `send(c, e);`
#[tactic(auto, using(ppd_check_names::proofs::Found::First::found_in_both))]
pub fn write_send<L: Ledger>(
    level: Level<'_>,
    frame: &Frame,
    id: u32,
    out: &mut Output,
    steps: &mut Steps<L>,
) -> Result<(), Memory>
    requires within { id < length level.source.nodes.now }
    ensures wrote { OnOk result (WroteSimple level.entry.site (send (place_at (below level.entry.source id) 0) (name_at
        (below level.entry.source id) 2) (formula_at (below level.entry.source id) 4)) frame.now out.old.table
        out.new.table out.old.row out.new.row) }
    ensures cost { steps.new ≤ steps.old + 6 * plain_below level.entry.source.nodes.now id + 6 }
{
    let place = place_at(level.source, id, 0);
    let name = label_at(level.source, id, 2);
    let meaning = used(
        &frame.scopes,
        name,
        Use::Channel,
        &mut out.table.found,
        steps,
    );
    let chan = channel_number(meaning);
    let operand = operand_at(level.source, id, 4);
    let table = &mut out.table;
    let number = write_term(level.source, frame, operand, table, steps)?;
    put_stmt(out, level.site, place, Kind::Send(chan, number), steps)
}
