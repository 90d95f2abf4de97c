// Look-ups in a past: by tables where they are at hand, else over items and entries.
ghost use Rattle.std.specs.Prelude.{◌≡◌, IfOk, take, get_or, []};
ghost use Rattle.ppd_graph.specs.Ends.{end_interval as end_interval_of, first_edge as first_edge_of, sync_item as sync_item_in};
ghost use Rattle.ppd_graph.specs.Seen.{is_item_of, place_of as place_among};
ghost use Rattle.ppd_graph.specs.Shared.{greatest_before as greatest_before_of};
ghost use Rattle.ppd_flow_past.specs.SeenBy.{items_in};
ghost use Rattle.ppd_flow_past.specs.declared.past.Past.{Past};
ghost use Rattle.ppd_flow_tables.specs.Stops.{ArePassed, after};
ghost use Rattle.ppd_flow_tables.specs.Tables.{edge_of};
ghost use Rattle.ppd_flow_tables.specs.Tabled.{AreTablesOf, IsTabled};

use crate::tables::Tables;
use ppd_ast::Memory;
use ppd_flow_past::{
    Past, edge_at as edge_among, end_interval as end_among, greatest_before as greatest_among,
    sync_item as sync_among,
};
use ppd_model::{EdgeId, Item};

fn is_interval(interval: u32, item: &Item) -> bool
    ensures { result ≡ is_item_of interval item.now }
{
    match item {
        Item::Own(_) => false,
        Item::Nested {
            interval: inner,
            ..
        } => interval == *inner,
    }
}

/// The place of an interval among these items, and 0 where it is none of them.
fn place_in(interval: u32, items: &[Item]) -> usize
    ensures { result ≡ place_among interval items.now }
{
    for (place, item) in items.iter().enumerate() {
        if is_interval(interval, item) {
            return place;
        }
    }
    0
}

/// The first items, so many, or all where there are fewer.
fn first_items(items: &[Item], count: usize) -> &[Item]
    ensures { result.now ≡ take count items.now }
{
    if count < items.len() {
        &items[..count]
    } else {
        items
    }
}

/// The last place before this one, if there is one.
fn last_before(place: usize) -> Option<usize>
    ensures { after result ≡ place }
{
    if place > 0 { Some(place - 1) } else { None }
}

/// The interval in which an internal edge ends: the innermost at the synchronization that ends it; of a last edge the
/// innermost that was not left, or interval 0.
pub fn end_interval(past: &Past, tables: &Tables, edge: EdgeId) -> u32
    requires { IsTabled past.now tables.now }
    ensures { result ≡ end_interval_of (get_or past.now.logs.now.lists edge.process []) edge.edge }
{
    match tables.edges(edge.process) {
        Some(table) => table.end_interval(edge.edge),
        None => end_among(past, edge.process, edge.edge),
    }
}

/// The place where an internal edge ends, among the items of the interval in which it ends: the item that is its
/// synchronization, and the place after all of them where none is. `Memory` is want of memory, also for a number of
/// more than 64 bits.
pub fn sync_item(
    past: &Past,
    tables: &Tables,
    edge: EdgeId,
    interval: u32,
    items: &[Item],
) -> Result<usize, Memory>
    requires tabled { IsTabled past.now tables.now }
    requires items { items.now ≡ items_in past.now edge.process interval }
    ensures { IfOk result (λ place. place
        ≡ sync_item_in (get_or past.now.logs.now.lists edge.process []) edge.edge
        (first_edge_of (get_or past.now.logs.now.lists edge.process []) interval) items.now) }
{
    match tables.block(edge.process, interval) {
        Some(tables) => Ok(tables.places.sync_item(edge.edge)),
        None => sync_among(past, edge.process, edge.edge, interval, items),
    }
}

/// The internal edge in which a place of an interval lies, whose items these are. `Memory` is want of memory, also for
/// a number of more than 32 bits.
pub fn edge_at(
    past: &Past,
    tables: &Tables,
    process: u8,
    interval: u32,
    items: &[Item],
    place: usize,
) -> Result<u32, Memory>
    requires tabled { IsTabled past.now tables.now }
    requires items { items.now ≡ items_in past.now process interval }
    ensures { IfOk result
        (λ edge. edge ≡ edge_of (get_or past.now.logs.now.lists process []) interval items.now place) }
{
    match tables.block(process, interval) {
        Some(tables) => Ok(tables.places.edge_at(place)),
        None => edge_among(past, process, interval, first_items(items, place)),
    }
}

/// The place of an inner interval among the items of an interval, and 0 where it is none of them.
pub fn place_of(tables: &Tables, process: u8, interval: u32, items: &[Item], inner: u32) -> usize
    ensures { (past : Past) → AreTablesOf past tables.now → items.now ≡ items_in past process interval
        → result ≡ place_among inner items.now }
{
    match tables.block(process, interval) {
        Some(tables) => tables.places.place_of(inner),
        None => place_in(inner, items),
    }
}

/// The last item before a place of an interval that the walk back to a write of a shared cell may not simply pass, and
/// none where it passes all.
pub fn stop_before(
    tables: &Tables,
    process: u8,
    interval: u32,
    items: &[Item],
    cell: u16,
    place: usize,
) -> Option<usize>
    ensures { (past : Past) → AreTablesOf past tables.now → items.now ≡ items_in past process interval
        → ArePassed cell items.now (after result) place }
{
    match tables.block(process, interval) {
        Some(tables) => tables.places.stop_before(cell, place),
        None => last_before(place.min(items.len())),
    }
}

/// The greatest internal edge by happened-before among those that are before an edge and whose recorded write set has
/// the cell, if there is one. `Memory` is want of memory, also for edges that have no numbers.
pub fn greatest_before(
    past: &Past,
    tables: &Tables,
    edge: EdgeId,
    cell: u16,
) -> Result<Option<EdgeId>, Memory>
    requires { IsTabled past.now tables.now }
    ensures { IfOk result
        (λ best. best ≡ greatest_before_of past.now.program.now past.now.logs.now edge cell) }
{
    match tables.writing() {
        Some(writing) => Ok(writing.greatest_uncounted(past, edge, cell)),
        None => greatest_among(past, edge, cell),
    }
}
