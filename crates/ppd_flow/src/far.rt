// The other processes of which intervals are replayed for the edges of an item.
ghost use Rattle.std.specs.Prelude.{◌≡◌, ◌++◌, IfErr, IfOk, OnOk, option_to_list};
ghost use Rattle.ppd_flow.specs.Far.{RoseWithin, far_in, far_of_event, far_of_reads_at, far_of_spot_at, far_of_sync_at};
ghost use Rattle.ppd_flow_local.specs.Searches.{IsPlace, IsSearch};
ghost use Rattle.ppd_flow_past.specs.ByReplays.{IsReplayFailure};
ghost use Rattle.ppd_flow_shared.specs.Tabled.{IsTabled};
ghost use Rattle.ppd_sem.specs.declared.event.Spot.TheVariants as spot;

use ppd_ast::{Memory, Seq, Steps};
use ppd_flow_local::{Place, Search};
use ppd_flow_past::{FlowError, Past};
use ppd_flow_shared::{CellSearch, ItemPlace, Tables, pair_of};
use ppd_graph::Paired;
use ppd_model::Item;
use ppd_sem::{Access, Event, Spot};
use std::alloc::Global;
use std::sync::ledger::Ledger;

/// The process of the edge in which the shared cell that is read at a place was written, where that is an edge before
/// that of the place.
fn shared_process<L: Ledger>(
    search: &Search,
    place: &Place,
    cell: u16,
    steps: &mut Steps<L>,
) -> Result<Option<u8>, FlowError>
    requires past { IsSearch search.now }
    requires place { IsPlace search.now place.now }
    ensures is { IfOk result
        (λ found. option_to_list found ≡ far_of_spot_at search.now place.now (spot.Shared cell)) }
    ensures cost { OnOk result (RoseWithin search.now.past.now search.now.process steps.old steps.new) }
    ensures error { IfErr result (IsReplayFailure search.now.past.now) }
{
    let cells = CellSearch {
        alloc: search.alloc,
        past: search.past,
        tables: search.tables,
        process: search.process,
        cell,
    };
    match cells.far_edge(place.interval, place.items, place.item, steps) {
        Ok(Some(edge)) => Ok(Some(edge.process)),
        Ok(None) => Ok(None),
        Err(error) => Err(error),
    }
}

/// The same of a spot.
fn read_process<L: Ledger>(
    search: &Search,
    place: &Place,
    spot: Spot,
    steps: &mut Steps<L>,
) -> Result<Option<u8>, FlowError>
    requires past { IsSearch search.now }
    requires place { IsPlace search.now place.now }
    ensures is { IfOk result (λ found. option_to_list found ≡ far_of_spot_at search.now place.now spot) }
    ensures cost { OnOk result (RoseWithin search.now.past.now search.now.process steps.old steps.new) }
    ensures error { IfErr result (IsReplayFailure search.now.past.now) }
{
    match spot {
        Spot::Local { .. } => Ok(None),
        Spot::Shared(cell) => shared_process(search, place, cell, steps),
    }
}

/// Puts the process behind these, if there is one.
fn push_if(processes: &mut Seq<u8>, process: Option<u8>) -> Result<(), Memory>
    ensures { OnOk result (processes.new ≡ processes.old ++ option_to_list process) }
{
    match process {
        Some(process) => processes.push(process),
        None => Ok(()),
    }
}

/// The processes of these reads at a place, in order.
fn read_processes<L: Ledger>(
    search: &Search,
    place: &Place,
    reads: &[Access],
    steps: &mut Steps<L>,
) -> Result<Seq<u8>, FlowError>
    requires past { IsSearch search.now }
    requires place { IsPlace search.now place.now }
    ensures is { IfOk result (λ found. found ≡ far_of_reads_at search.now place.now reads.now) }
    ensures cost { OnOk result (RoseWithin search.now.past.now search.now.process steps.old steps.new) }
    ensures error { IfErr result (IsReplayFailure search.now.past.now) }
{
    let mut processes = Seq::new(search.alloc);
    for read in reads {
        let process = read_process(search, place, read.spot, steps)?;
        push_if(&mut processes, process)?;
    }
    Ok(processes)
}

/// The process of the pair of the synchronization with this number at a place.
fn pair_process(search: &Search, place: &Place, number: Option<u32>) -> Result<Option<u8>, Memory>
    requires past { IsSearch search.now }
    requires place { IsPlace search.now place.now }
    ensures { IfOk result (λ found. option_to_list found ≡ far_of_sync_at search.now place.now number) }
{
    if number.is_none() {
        return Ok(None);
    }
    let at = ItemPlace {
        process: search.process,
        interval: place.interval,
        item: place.item,
    };
    match pair_of(search.past, &search.tables, at, place.items)? {
        Paired::Node(node) => Ok(Some(node.process)),
        Paired::Nothing | Paired::Initial => Ok(None),
    }
}

/// The processes of an event at a place: of its reads in order, and of its pair.
fn event_processes<L: Ledger>(
    search: &Search,
    place: &Place,
    event: &Event,
    steps: &mut Steps<L>,
) -> Result<Seq<u8>, FlowError>
    requires past { IsSearch search.now }
    requires place { IsPlace search.now place.now }
    ensures is { IfOk result (λ found. found ≡ far_of_event search.now place.now event.now) }
    ensures cost { OnOk result (RoseWithin search.now.past.now search.now.process steps.old steps.new) }
    ensures error { IfErr result (IsReplayFailure search.now.past.now) }
{
    let mut processes = read_processes(search, place, event.reads.as_slice(), steps)?;
    let pair = pair_process(search, place, event.number)?;
    push_if(&mut processes, pair)?;
    Ok(processes)
}

/// The processes, but for its own, of which intervals are replayed for the edges of an item: for each read those in
/// which a shared cell was written in an earlier internal edge, and for a synchronization that of its pair. None of
/// their intervals is replayed here. An item that is not there has none.
///
/// The counter rises by the own steps of intervals of the item's process. `Diverged`: the replay of one of these fails
/// at this entry. `Memory` is want of memory, also for items that have no 32-bit numbers. No other error comes.
pub fn far_processes<L: Ledger>(
    alloc: Global,
    past: &Past,
    tables: &Tables,
    at: ItemPlace,
    steps: &mut Steps<L>,
) -> Result<Seq<u8>, FlowError>
    requires { IsTabled past.now tables.now }
    ensures is { IfOk result (λ found. found ≡ far_in past.now at.process at.interval at.item) }
    ensures cost { OnOk result (RoseWithin past.now at.process steps.old steps.new) }
    ensures error { IfErr result (IsReplayFailure past.now) }
{
    let search = Search {
        alloc,
        past,
        tables: *tables,
        process: at.process,
    };
    let items = search.items(at.interval, steps)?;
    let items = items.as_slice();
    if at.item >= items.len() {
        return Ok(Seq::new(alloc));
    }
    let place = Place {
        interval: at.interval,
        items,
        item: at.item,
    };
    match &items[at.item] {
        Item::Own(event) => event_processes(&search, &place, event, steps),
        Item::Nested { .. } => Ok(Seq::new(alloc)),
    }
}
