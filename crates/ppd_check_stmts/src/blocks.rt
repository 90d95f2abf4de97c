// The statements of a body's block.
ghost use Rattle.std.specs.Prelude.{◌<◌, ◌≤◌, ◌+◌, ◌*◌, IfSome, OnOk, length};
ghost use Rattle.ppd_check_names.specs.Cost.{if_there, nested_at};
ghost use Rattle.ppd_check_stmts.specs.Writing.{Walked, block_at};

use crate::walk::write_body;
use ppd_ast::{Memory, Steps};
use ppd_check_names::{Frame, Level, Output};
use std::sync::ledger::Ledger;

/// Adds the statements of a block that stands at a node, if it does, to the table and the row, as those of a body, and
/// notes the rules that they break. `Memory` is want of memory.
pub fn write_block<L: Ledger>(
    level: Level<'_>,
    block: Option<u32>,
    frame: &mut Frame,
    out: &mut Output,
    steps: &mut Steps<L>,
) -> Result<(), Memory>
    requires within { IfSome block (λ block. block < length level.source.nodes.now) }
    ensures walked { OnOk result (Walked level.entry.site (block_at level.entry.source.nodes.now block).row frame.old
        frame.new out.old.table out.new.table out.old.row out.new.row) }
    ensures cost { steps.new ≤ steps.old + 48 * if_there (nested_at level.entry.source.nodes.now) block }
{
    match block {
        None => Ok(()),
        Some(block) => write_body(level, block, frame, out, steps),
    }
}
