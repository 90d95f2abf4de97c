// What a `for` says before its first turn and after each.
ghost use Rattle.std.specs.Prelude.{◌<◌, OnOk, length, ◌≤◌, ◌+◌, ◌*◌};
ghost use Rattle.ppd_check_stmts.specs.Plain.{row_any};
ghost use Rattle.ppd_check_names.specs.Reading.{phrase, some_change};
ghost use Rattle.ppd_check_names.specs.Cost.{plain_below};
ghost use Rattle.ppd_check_stmts.specs.Writing.{Walked};
ghost use Rattle.ppd_check_names.specs.Nodes.{below};

use crate::locals::write_local;
use ppd_ast::{Memory, Steps};
use ppd_check_names::{Frame, Level, Output, child_at};
use std::sync::ledger::Ledger;

// What the child changes or declares, if anything.
pub fn write_changing<L: Ledger>(
    level: Level<'_>,
    id: u32,
    k: usize,
    frame: &mut Frame,
    out: &mut Output,
    steps: &mut Steps<L>,
) -> Result<(), Memory>
    requires within { id < length level.source.nodes.now }
    ensures walked { OnOk result (Walked level.entry.site (row_any (some_change (phrase
        (below level.entry.source id) k))) frame.old frame.new out.old.table out.new.table out.old.row out.new.row) }
    ensures cost { steps.new ≤ steps.old + 18 * plain_below level.entry.source.nodes.now id }
{
    match child_at(level.source, id, k) {
        None => Ok(()),
        Some(child) => write_local(level, child, frame, out, steps),
    }
}
