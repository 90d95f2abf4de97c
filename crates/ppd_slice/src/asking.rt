// The edges of items, by replays that are kept: each interval is replayed at most once.
ghost use Rattle.std.specs.Prelude.{◌≡◌, ◌∷◌, [], true, Err, IfErr, IfOk, OnOk};
ghost use Rattle.ppd_flow.specs.Far.{far_in};
ghost use Rattle.ppd_flow_past.specs.ByReplays.{IsReplayFailure, IsReplayed};
ghost use Rattle.ppd_flow_past.specs.Keeping.{IsAllKept, RoseByKept};
ghost use Rattle.ppd_flow_past.specs.Pasts.{IsPast};
ghost use Rattle.ppd_slice.specs.Asked.{AreAllKept, AreKeptFor, AreStillKept, IsAsked, IsKept, IsThere};
ghost use Rattle.ppd_slice.specs.Slices.{IsNoItem, IsSliceOf};

use crate::held::{Kept, keep};
use ppd_ast::{Seq, Steps};
use ppd_flow::{FlowEdge, FlowError, ItemPlace, Past, edges_by_tables, far_processes};
use ppd_slice_search::{ItemAt, has_item};
use std::alloc::Global;
use std::sync::ledger::Ledger;

/// Whether an interval has an item of this number. Nothing is replayed where its process is kept.
fn is_there<L: Ledger>(
    alloc: Global,
    past: &Past,
    kept: &Kept,
    at: ItemAt,
    steps: &mut Steps<L>,
) -> Result<bool, FlowError>
    requires past { IsPast past.now }
    requires kept { IsKept past.now kept.now }
    ensures is { IfOk result (IsThere past.now at) }
    ensures cost { IsAllKept past.now kept.now.replays at.process → OnOk result (steps.new ≡ steps.old) }
    ensures error { IfErr result (λ e. IsReplayed past.now at.process at.interval (Err e)) }
{
    let known = past.with_kept(kept.replays.as_slice());
    match has_item(alloc, &known, at, steps) {
        Ok(there) => Ok(there),
        Err(error) => Err(error),
    }
}

/// Keeps the process of the first item, which is there. That it is not is answered before any replay that fails, but
/// for that of its own interval.
pub(crate) fn keep_first<L: Ledger>(
    alloc: Global,
    past: &Past,
    kept: &mut Kept,
    start: ItemAt,
    steps: &mut Steps<L>,
) -> Result<(), FlowError>
    requires past { IsPast past.now }
    requires kept { IsKept past.now kept.old }
    ensures kept { IsKept past.now kept.new }
    ensures only { AreKeptFor (start.process ∷ []) kept.old.replays kept.new.replays }
    ensures there { OnOk result (IsNoItem past.now start → ⊥) }
    ensures cost { OnOk result (RoseByKept past.now kept.old.replays kept.new.replays steps.old steps.new) }
    ensures error { IfErr result (λ e. IsSliceOf past.now start (Err e)) }
{
    let replays = keep(alloc, past, kept, start.process, steps);
    match is_there(alloc, past, kept, start, steps) {
        Ok(true) => replays,
        Ok(false) => Err(FlowError::NoEvent),
        Err(error) => Err(error),
    }
}

/// Keeps these processes.
fn keep_all<L: Ledger>(
    alloc: Global,
    past: &Past,
    kept: &mut Kept,
    processes: &[u8],
    steps: &mut Steps<L>,
) -> Result<(), FlowError>
    requires past { IsPast past.now }
    requires kept { IsKept past.now kept.old }
    ensures kept { IsKept past.now kept.new }
    ensures still { OnOk result (AreStillKept past.now kept.old.replays kept.new.replays) }
    ensures all { OnOk result (AreAllKept past.now kept.new.replays processes.now) }
    ensures only { AreKeptFor processes.now kept.old.replays kept.new.replays }
    ensures cost { OnOk result (RoseByKept past.now kept.old.replays kept.new.replays steps.old steps.new) }
    ensures error { IfErr result (IsReplayFailure past.now) }
{
    for process in processes {
        keep(alloc, past, kept, *process, steps)?;
    }
    Ok(())
}

/// The other processes that the edges of an item need, whose own process is kept.
fn far_known<L: Ledger>(
    alloc: Global,
    past: &Past,
    kept: &Kept,
    at: ItemAt,
    steps: &mut Steps<L>,
) -> Result<Seq<u8>, FlowError>
    requires past { IsPast past.now }
    requires kept { IsKept past.now kept.now }
    requires own { IsAllKept past.now kept.now.replays at.process }
    ensures is { IfOk result (λ found. found ≡ far_in past.now at.process at.interval at.item) }
    ensures cost { OnOk result (steps.new ≡ steps.old) }
    ensures error { IfErr result (IsReplayFailure past.now) }
{
    let known = past.with_kept(kept.replays.as_slice());
    let tables = kept.tables.tables();
    let place = ItemPlace {
        process: at.process,
        interval: at.interval,
        item: at.item as usize,
    };
    far_processes(alloc, &known, &tables, place, steps)
}

/// Keeps the other processes that the edges of an item need, whose own process is kept.
fn keep_far<L: Ledger>(
    alloc: Global,
    past: &Past,
    kept: &mut Kept,
    at: ItemAt,
    steps: &mut Steps<L>,
) -> Result<(), FlowError>
    requires past { IsPast past.now }
    requires kept { IsKept past.now kept.old }
    requires own { IsAllKept past.now kept.old.replays at.process }
    ensures kept { IsKept past.now kept.new }
    ensures still { OnOk result (AreStillKept past.now kept.old.replays kept.new.replays) }
    ensures all { OnOk result (AreAllKept past.now kept.new.replays (far_in past.now at.process at.interval at.item)) }
    ensures only { AreKeptFor (far_in past.now at.process at.interval at.item) kept.old.replays kept.new.replays }
    ensures cost { OnOk result (RoseByKept past.now kept.old.replays kept.new.replays steps.old steps.new) }
    ensures error { IfErr result (IsReplayFailure past.now) }
{
    let far = far_known(alloc, past, kept, at, steps)?;
    keep_all(alloc, past, kept, far.as_slice(), steps)
}

/// The edges of an item that is there, whose process and those that they need are kept.
fn edges_known<L: Ledger>(
    alloc: Global,
    past: &Past,
    kept: &Kept,
    at: ItemAt,
    steps: &mut Steps<L>,
) -> Result<Option<Seq<FlowEdge>>, FlowError>
    requires past { IsPast past.now }
    requires kept { IsKept past.now kept.now }
    requires own { IsAllKept past.now kept.now.replays at.process }
    requires far { AreAllKept past.now kept.now.replays (far_in past.now at.process at.interval at.item) }
    requires there { IsThere past.now at true }
    ensures is { IsAsked past.now at result }
    ensures cost { OnOk result (steps.new ≡ steps.old) }
{
    let known = past.with_kept(kept.replays.as_slice());
    let tables = kept.tables.tables();
    let place = ItemPlace {
        process: at.process,
        interval: at.interval,
        item: at.item as usize,
    };
    match edges_by_tables(alloc, &known, &tables, place, steps) {
        Ok(edges) => Ok(Some(edges)),
        Err(error) => Err(error),
    }
}

/// The edges of an item, by replays that are kept, or none where it is not there. The processes of which intervals are
/// needed are kept first.
pub(crate) fn edges_by_kept<L: Ledger>(
    alloc: Global,
    past: &Past,
    kept: &mut Kept,
    at: ItemAt,
    steps: &mut Steps<L>,
) -> Result<Option<Seq<FlowEdge>>, FlowError>
    requires past { IsPast past.now }
    requires kept { IsKept past.now kept.old }
    ensures kept { IsKept past.now kept.new }
    ensures is { IsAsked past.now at result }
    ensures only { OnOk result
        (AreKeptFor (at.process ∷ far_in past.now at.process at.interval at.item) kept.old.replays kept.new.replays) }
    ensures cost { OnOk result (RoseByKept past.now kept.old.replays kept.new.replays steps.old steps.new) }
{
    keep(alloc, past, kept, at.process, steps)?;
    let there = is_there(alloc, past, kept, at, steps)?;
    if !there {
        return Ok(None);
    }
    keep_far(alloc, past, kept, at, steps)?;
    edges_known(alloc, past, kept, at, steps)
}
