ghost use Rattle.std.specs.Prelude.{◌≡◌, ◌<◌, ◌≤◌, ◌+◌, ◌^◌, ◌++◌, ◌∷◌, List, [], is_some, length, IfOk, OnOk, if◌then◌else◌};
ghost use Rattle.ppd_graph.specs.LogRecord.{AreFew};
ghost use Rattle.ppd_model.specs.RecordedSets.{sync_in};
ghost use Rattle.std.specs.List.{sum_by, flat_map, enumerate_from};
ghost use Rattle.ppd_graph.specs.Spending.{list_cost};
ghost use Rattle.ppd_model.specs.declared.entry.Entry.{Entry as EntryOf};
ghost use Rattle.ppd_graph.specs.Refusals.{placed_from};

use ppd_ast::limits::MOST_NAMED;
use ppd_ast::{Memory, Seq, Steps, SyncKind};
use ppd_model::{At, Entry, NodeId};
use std::alloc::Global;
use std::sync::ledger::Ledger;

/// A synchronization of logs, with the place of its entry.
#[derive(Clone, Copy)]
pub(crate) struct Placed {
    pub at: At,
    pub node: NodeId,
    pub kind: SyncKind,
    pub object: u8,
    pub number: u32,
}

// Adds the entry where it is a synchronization. The answer is the number of the next one.
fn place_one(
    placed: &mut Seq<Placed>,
    process: u8,
    index: u32,
    sync: u32,
    entry: &Entry,
) -> Result<u32, Memory>
    requires { sync + 1 < 2 ^ 32 }
    ensures placed { IfOk result (λ now. (rest : List EntryOf)
        → placed.new ++ placed_from process (index + 1) now rest
        ≡ placed.old ++ placed_from process index sync (entry.now ∷ rest)) }
    ensures next { IfOk result (λ now. now ≡ (if is_some (sync_in entry.now) then sync + 1 else sync)) }
{
    match entry {
        Entry::Sync {
            kind,
            object,
            number,
            ..
        } => {
            placed.push(Placed {
                at: At {
                    process,
                    entry: index,
                },
                node: NodeId { process, sync },
                kind: *kind,
                object: *object,
                number: *number,
            })?;
            Ok(sync + 1)
        }
        _ => Ok(sync),
    }
}

fn place_own<L: Ledger>(
    placed: &mut Seq<Placed>,
    process: u8,
    entries: &[Entry],
    steps: &mut Steps<L>,
) -> Result<(), Memory>
    requires { length entries.now + 1 < 2 ^ 32 }
    ensures cost { steps.new ≤ steps.old + length entries.now }
    ensures taken { OnOk result (steps.new ≡ steps.old + length entries.now) }
    ensures placed { OnOk result (placed.new ≡ placed.old ++ placed_from process 0 0 entries.now) }
{
    let mut sync = 0;
    for (index, entry) in entries.iter().enumerate() {
        steps.tick();
        sync = place_one(placed, process, index as u32, sync, entry)?;
    }
    Ok(())
}

/// All synchronizations of the logs, in order of process and entry.
pub(crate) fn all_placed<L: Ledger>(
    alloc: Global,
    lists: &[Seq<Entry>],
    steps: &mut Steps<L>,
) -> Result<Seq<Placed>, Memory>
    requires processes { length lists.now ≤ MOST_NAMED }
    requires few { AreFew lists.now }
    ensures placed { IfOk result
        (λ placed. placed ≡ flat_map (λ e. placed_from e.0 0 0 e.1) (enumerate_from 0 lists.now)) }
    ensures cost { steps.new ≤ steps.old + sum_by list_cost lists.now }
    ensures taken { OnOk result (steps.new ≡ steps.old + sum_by list_cost lists.now) }
{
    let mut placed = Seq::new(alloc);
    for (process, list) in lists.iter().enumerate() {
        steps.tick();
        place_own(&mut placed, process as u8, list.as_slice(), steps)?;
    }
    Ok(placed)
}
