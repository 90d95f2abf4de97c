// The tags of local cells: which event last wrote each.
ghost use Rattle.std.specs.Prelude.{◌≡◌, ◌∷◌, fold, length, OnOk};
ghost use Rattle.ppd_activations.specs.Runs.{called};
ghost use Rattle.ppd_whole_writes.specs.Tags.{tag_write as tag_write_of, tagged_by_kind};

use ppd_activations::{Run, called_run, return_tag, set_tag};
use ppd_ast::{Kind, Memory, Program, Steps};
use ppd_model::EventId;
use ppd_sem::{Access, Event, Spot, Stack};
use std::alloc::Global;
use std::sync::ledger::Ledger;

fn tag_write<L: Ledger>(
    runs: &mut Stack<Run>,
    tag: Option<EventId>,
    access: Access,
    steps: &mut Steps<L>,
) -> Result<(), Memory>
    ensures { OnOk result (runs.new ≡ tag_write_of tag runs.old access) }
{
    match access.spot {
        Spot::Local { cell, .. } => set_tag(runs, cell as usize, tag, steps),
        Spot::Shared(_) => Ok(()),
    }
}

/// Writes this tag to each local cell of these. `Memory` is want of memory, here and below.
pub fn tag_writes<L: Ledger>(
    runs: &mut Stack<Run>,
    tag: Option<EventId>,
    writes: &[Access],
    steps: &mut Steps<L>,
) -> Result<(), Memory>
    ensures { OnOk result (runs.new ≡ fold (tag_write_of tag) runs.old writes.now) }
{
    for access in writes {
        tag_write(runs, tag, *access, steps)?;
    }
    Ok(())
}

/// Which process is followed in which program, with the call that began its running body.
#[derive(Clone, Copy)]
pub struct At<'a> {
    pub alloc: Global,
    pub program: &'a Program,
    pub call: Option<u32>,
}

/// Begins the run of a function, whose call is this event.
fn begin_call<L: Ledger>(
    at: &At,
    tag: Option<EventId>,
    event: &Event,
    function: u16,
    runs: &mut Stack<Run>,
    steps: &mut Steps<L>,
) -> Result<(), Memory>
    ensures { OnOk result
        (runs.new ≡ called at.now.program.now function (length event.now.writes) tag ∷ runs.old) }
{
    let count = event.writes.len();
    let run = called_run(at.alloc, at.program, function, count, tag, steps)?;
    runs.push(run)
}

/// Writes the tags of what an event of a statement of this kind writes, and begins or ends the run of a function.
pub fn tag_kind<L: Ledger>(
    at: &At,
    tag: Option<EventId>,
    event: &Event,
    kind: &Kind,
    runs: &mut Stack<Run>,
    steps: &mut Steps<L>,
) -> Result<(), Memory>
    ensures { OnOk result (runs.new ≡ tagged_by_kind at.now.program.now at.now.call tag event.now kind.now runs.old) }
{
    match kind {
        Kind::Call { function, .. } => begin_call(at, tag, event, *function, runs, steps),
        Kind::Return(_) => return_tag(at.program, at.call, event.value, tag, runs, steps),
        _ => tag_writes(runs, tag, event.writes.as_slice(), steps),
    }
}
