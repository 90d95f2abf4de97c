// The tags of the local cells that events write.
ghost use Rattle.std.specs.Prelude.{◌≡◌, ◌+◌, ◌≤◌, drop, OnOk};
ghost use Rattle.ppd_sem.specs.Process.{into_of as into_of_kind, into_at};
ghost use Rattle.ppd_activations.specs.Runs.{tagged, tagged_into};

use crate::runs::Run;
use ppd_ast::{Kind, Memory, Program, Steps};
use ppd_model::EventId;
use ppd_sem::Stack;
use std::sync::ledger::Ledger;

/// Writes the tag of a local cell of the top run, in two steps. `Memory` is want of memory.
pub fn set_tag<L: Ledger>(
    runs: &mut Stack<Run>,
    cell: usize,
    tag: Option<EventId>,
    steps: &mut Steps<L>,
) -> Result<(), Memory>
    ensures value { OnOk result (runs.new ≡ tagged cell tag runs.old) }
    ensures cost { steps.new ≤ steps.old + 2 }
{
    match runs.pop() {
        Some(mut own) => {
            steps.tick();
            own.tags.set(cell, tag);
            steps.tick();
            runs.push(own)
        }
        None => Ok(()),
    }
}

/// The cell in which a call of a statement of this kind receives its value.
fn into_of(kind: &Kind) -> Option<u16>
    ensures { result ≡ into_of_kind kind.now }
{
    match kind {
        Kind::Call { into, .. } => *into,
        _ => None,
    }
}

/// The cell in which the call of this statement receives its value.
fn into_at_call(program: &Program, call: Option<u32>) -> Option<u16>
    ensures { result ≡ into_at program.now call }
{
    let call = call?;
    match program.stmts.get(call as usize) {
        Some(stmt) => into_of(&stmt.kind),
        None => None,
    }
}

/// Writes the tag of the local that receives a value, where there are a local and a value.
fn receive_tag<L: Ledger>(
    runs: &mut Stack<Run>,
    into: Option<u16>,
    value: Option<i64>,
    tag: Option<EventId>,
    steps: &mut Steps<L>,
) -> Result<(), Memory>
    ensures value { OnOk result (runs.new ≡ tagged_into into value tag runs.old) }
    ensures cost { steps.new ≤ steps.old + 2 }
{
    match into {
        Some(cell) => match value {
            Some(_) => set_tag(runs, cell as usize, tag, steps),
            None => Ok(()),
        },
        None => Ok(()),
    }
}

/// Ends the top run, which the call of this statement began; the one below receives the value, in two steps. `Memory`
/// is want of memory.
pub fn return_tag<L: Ledger>(
    program: &Program,
    call: Option<u32>,
    value: Option<i64>,
    tag: Option<EventId>,
    runs: &mut Stack<Run>,
    steps: &mut Steps<L>,
) -> Result<(), Memory>
    ensures value { OnOk result (runs.new ≡ tagged_into (into_at program.now call) value tag (drop 1 runs.old)) }
    ensures cost { steps.new ≤ steps.old + 2 }
{
    runs.pop();
    receive_tag(runs, into_at_call(program, call), value, tag, steps)
}
