ghost use Rattle.std.specs.Prelude.{◌≡◌, ◌+◌, ◌<◌, length, IfSome, option_copied};
ghost use Rattle.ppd_flow.specs.Answers.{IsEdges, pair_edge_at};
ghost use Rattle.ppd_flow.specs.Missing.{IsCauseOfSets};
ghost use Rattle.ppd_flow.specs.Runs.{CostsEdges, GivesEdges};
ghost use Rattle.ppd_flow_local.specs.Searches.{IsPlace, IsSearch};
ghost use Rattle.ppd_model.specs.declared.flow.EdgeKind.TheVariants as edge_kind;
ghost use Rattle.ppd_model.specs.FlowbackEdges.{bare_edge};
ghost use Rattle.ppd_flow_past.specs.ByReplays.{AreReplayed, steps_to_replay};
ghost use Rattle.ppd_flow_past.specs.Pasts.{IsPast};
ghost use Rattle.ppd_graph.specs.Found.{event_edges as event_edges_of, item_edges as item_edges_of};
ghost use Rattle.ppd_flow_shared.specs.SharedCells.{IsAnswerTo, IsSought, seens_in};
ghost use Rattle.ppd_flow_shared.specs.Tabled.{IsOfInterval, IsTabled};

use crate::reads::read_edges;
use law_flow::{all_own_parts_are_found, edges_are_found, edges_cost_little};
use ppd_ast::{Seq, Steps};
use ppd_flow_local::{Place, Search, asked_items, control_edge, push_rest};
use ppd_flow_past::{FlowError, Past, replays_are_seen};
use ppd_flow_shared::{ItemPlace, TabledItems, Tables, pair_origin};
use ppd_model::{EdgeKind, FlowEdge, Item, Origin};
use ppd_sem::Event;
use std::alloc::Global;
use std::sync::ledger::Ledger;

/// The edge from the synchronization that leads to an item.
fn sync_edge(from: Origin) -> FlowEdge
    ensures { result ≡ bare_edge edge_kind.Sync from }
{
    FlowEdge {
        kind: EdgeKind::Sync,
        spot: None,
        value: None,
        from,
    }
}

/// The edge from the pair of the synchronization with this number at a place, where it has one.
fn pair_edge<L: Ledger>(
    search: &Search,
    place: &Place,
    number: Option<u32>,
    steps: &mut Steps<L>,
) -> Result<Option<FlowEdge>, FlowError>
    requires past { IsSearch search.now }
    requires place { IsPlace search.now place.now }
    ensures { IsSought search.now.past.now (pair_edge_at search.now place.now number) steps.old steps.new result }
{
    if number.is_none() {
        return Ok(None);
    }
    let at = ItemPlace {
        process: search.process,
        interval: place.interval,
        item: place.item,
    };
    match pair_origin(
        search.alloc,
        search.past,
        &search.tables,
        at,
        place.items,
        steps,
    )? {
        Some(from) => Ok(Some(sync_edge(from))),
        None => Ok(None),
    }
}

/// The edges of an event at a place: its reads in order, its pair, and what let it run.
fn event_edges<L: Ledger>(
    search: &Search,
    place: &Place,
    event: &Event,
    steps: &mut Steps<L>,
) -> Result<Seq<FlowEdge>, FlowError>
    requires past { IsSearch search.now }
    requires place { IsPlace search.now place.now }
    ensures { IsAnswerTo search.now.past.now
        (event_edges_of search.now.past.now.program.now search.now.past.now.plan.now search.now.past.now.logs.now
        (seens_in search.now.past.now) search.now.process place.now.interval place.now.item event.now)
        steps.old steps.new result }
{
    let mut edges = read_edges(search, place, event.reads.as_slice(), steps)?;
    let pair = pair_edge(search, place, event.number, steps)?;
    let from = search.control_origin(place, event.stmt, steps)?;
    push_rest(&mut edges, pair, control_edge(from))?;
    Ok(edges)
}

/// The edges of the item at a place.
fn item_edges<L: Ledger>(
    search: &Search,
    place: &Place,
    item: &Item,
    steps: &mut Steps<L>,
) -> Result<Seq<FlowEdge>, FlowError>
    requires past { IsSearch search.now }
    requires place { IsPlace search.now place.now }
    requires item { place.now.item < length place.now.items.now }
    ensures { IsAnswerTo search.now.past.now
        (item_edges_of search.now.past.now.program.now search.now.past.now.plan.now search.now.past.now.logs.now
        (seens_in search.now.past.now) search.now.process place.now.interval place.now.item item.now)
        steps.old steps.new result }
{
    match item {
        Item::Own(event) => event_edges(search, place, event, steps),
        Item::Nested {
            interval,
            block,
            values,
            ..
        } => search.nested_edges(place, *interval, *block, values.as_slice(), steps),
    }
}

/// The flowback edges of an item, as they are defined.
fn edges_found<L: Ledger>(
    alloc: Global,
    past: &Past,
    tables: &Tables,
    at: ItemPlace,
    steps: &mut Steps<L>,
) -> Result<Seq<FlowEdge>, FlowError>
    requires { IsTabled past.now tables.now }
    ensures { IsEdges past.now at.process at.interval at.item steps.old steps.new result }
{
    let search = Search {
        alloc,
        past,
        tables: *tables,
        process: at.process,
    };
    let items = asked_items(alloc, past, at.process, at.interval, at.item, steps)?;
    let items = items.as_slice();
    let place = Place {
        interval: at.interval,
        items,
        item: at.item,
    };
    item_edges(&search, &place, &items[at.item], steps)
}

/// What `edges` answers for an item, by the tables that are at hand: where they are those of the intervals that are
/// needed, no items are gone over.
pub fn edges_by_tables<L: Ledger>(
    alloc: Global,
    past: &Past,
    tables: &Tables,
    at: ItemPlace,
    steps: &mut Steps<L>,
) -> Result<Seq<FlowEdge>, FlowError>
    requires { IsTabled past.now tables.now }
    ensures found { IsEdges past.now at.process at.interval at.item steps.old steps.new result }
    ensures run { GivesEdges past.now at.process at.interval at.item result }
    ensures cost { CostsEdges past.now at.process at.interval at.item steps.old steps.new result }
    ensures sets { IsCauseOfSets past.now result }
{
    replays_are_seen();
    edges_are_found();
    all_own_parts_are_found();
    edges_cost_little();
    edges_found(alloc, past, tables, at, steps)
}

/// The same where the items of its interval are given.
fn edges_given<L: Ledger>(
    alloc: Global,
    past: &Past,
    at: ItemPlace,
    given: TabledItems,
    steps: &mut Steps<L>,
) -> Result<Seq<FlowEdge>, FlowError>
    requires past { IsPast past.now }
    requires items { AreReplayed past.now at.process at.interval given.items.now }
    requires tables { IfSome (option_copied given.tables) (IsOfInterval past.now at.process at.interval) }
    ensures { IsEdges past.now at.process at.interval at.item steps.old
        (steps.new + steps_to_replay past.now at.process at.interval) result }
{
    let search = Search {
        alloc,
        past,
        tables: given.tables_at(at.process, at.interval),
        process: at.process,
    };
    if at.item >= given.items.len() {
        return Err(FlowError::NoEvent);
    }
    let place = Place {
        interval: at.interval,
        items: given.items,
        item: at.item,
    };
    item_edges(&search, &place, &given.items[at.item], steps)
}

/// What `edges` answers for an item, from the items of its interval as a replay gave them, so that this interval is not
/// replayed again for them. The counter rises as in `edges`, but not by the own steps of that interval.
pub fn edges_from<L: Ledger>(
    alloc: Global,
    past: &Past,
    at: ItemPlace,
    given: TabledItems,
    steps: &mut Steps<L>,
) -> Result<Seq<FlowEdge>, FlowError>
    requires past { IsPast past.now }
    requires items { AreReplayed past.now at.process at.interval given.items.now }
    requires tables { IfSome (option_copied given.tables) (IsOfInterval past.now at.process at.interval) }
    ensures found { IsEdges past.now at.process at.interval at.item steps.old
        (steps.new + steps_to_replay past.now at.process at.interval) result }
    ensures run { GivesEdges past.now at.process at.interval at.item result }
    ensures cost { CostsEdges past.now at.process at.interval at.item steps.old
        (steps.new + steps_to_replay past.now at.process at.interval) result }
    ensures sets { IsCauseOfSets past.now result }
{
    replays_are_seen();
    edges_are_found();
    all_own_parts_are_found();
    edges_cost_little();
    edges_given(alloc, past, at, given, steps)
}

/// The flowback edges of an item of an interval, in order: of an event one for each read from where what is read was
/// written last, one from the synchronization that leads to it, and one from what let it run; of an interval inside
/// one for each local cell that its loop left, or for the value that its function returned, and one from what let it
/// run. They are found by replays of single intervals alone (Choi, Miller and Netzer 1991), from nothing but the
/// program, its plan, the logs, their index and their graph.
///
/// The counter rises by the own steps of the intervals that are replayed: this one first, and then for each edge those
/// that it needs, in order.
///
/// `Diverged`: the replay of one of these intervals fails, the first that does, at this entry. `NoEvent`: the interval
/// has no item of this number. `Sets`: none of these replays fails; this entry, of logs that the index accepts, ends an
/// internal edge of the process, its write set has the cell, and no event that the replays give of that edge writes the
/// cell. `Memory` is want of memory, also for items that have no 32-bit numbers.
///
/// Of what is kept of a whole run without a race, under the plan of a policy, the answer is the item's edges in the
/// run, or `NoEvent` exactly where there is no such item, or `Memory`; and where it has n edges, the counter rose by at
/// most 2 (n + 1) times the own steps of the intervals near to the item: those round it with the loops directly inside
/// these, those open in the item's internal edge, and of each edge's origin its interval and those open in its internal
/// edge.
pub fn edges<L: Ledger>(
    alloc: Global,
    past: &Past,
    process: u8,
    interval: u32,
    item: u32,
    steps: &mut Steps<L>,
) -> Result<Seq<FlowEdge>, FlowError>
    requires { IsPast past.now }
    ensures found { IsEdges past.now process interval item steps.old steps.new result }
    ensures run { GivesEdges past.now process interval item result }
    ensures cost { CostsEdges past.now process interval item steps.old steps.new result }
    ensures sets { IsCauseOfSets past.now result }
{
    let at = ItemPlace {
        process,
        interval,
        item: item as usize,
    };
    edges_by_tables(alloc, past, &Tables::Nothing, at, steps)
}
