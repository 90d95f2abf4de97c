// The tags of local cells: which event last wrote each.
ghost use Rattle.std.specs.Prelude.{◌≡◌, OnOk};
ghost use Rattle.ppd_ast.specs.Lookups.{kind_of};
ghost use Rattle.ppd_whole_link.specs.Runs.{tagged_unless};
ghost use Rattle.ppd_whole_writes.specs.Tags.{tagged_by_kind};

use ppd_activations::Run;
use ppd_ast::{Memory, Steps};
use ppd_model::EventId;
use ppd_sem::{Event, Stack};
use ppd_whole_writes::{At, tag_kind, tag_writes};
use std::sync::ledger::Ledger;

fn tag_finished<L: Ledger>(
    at: &At,
    tag: Option<EventId>,
    event: &Event,
    runs: &mut Stack<Run>,
    steps: &mut Steps<L>,
) -> Result<(), Memory>
    ensures { OnOk result
        (runs.new
        ≡ tagged_by_kind at.now.program.now at.now.call tag event.now
        (kind_of at.now.program.now event.now.stmt) runs.old) }
{
    match at.program.stmts.get(event.stmt as usize) {
        Some(stmt) => tag_kind(at, tag, event, &stmt.kind, runs, steps),
        None => tag_writes(runs, tag, event.writes.as_slice(), steps),
    }
}

/// Writes the tags of what an event writes; one that traps writes nothing. `Memory` is want of memory.
pub(crate) fn tag_event<L: Ledger>(
    at: &At,
    tag: Option<EventId>,
    event: &Event,
    runs: &mut Stack<Run>,
    steps: &mut Steps<L>,
) -> Result<(), Memory>
    ensures { OnOk result
        (runs.new ≡ tagged_unless event.now.trap at.now.program.now at.now.call tag event.now runs.old) }
{
    match event.trap {
        Some(_) => Ok(()),
        None => tag_finished(at, tag, event, runs, steps),
    }
}
