ghost use Rattle.std.specs.Prelude.{◌≡◌, ◌+◌, ◌<◌, ◌^◌, IfOk, List, ℕ, length};
ghost use Rattle.ppd_model.specs.declared.entry.Entry.{Entry};
ghost use Rattle.ppd_flow_tables.specs.Tables.{AreEdges, AreWhere, IsEdgeTable, IsPlaceTable, is_marked};
ghost use Rattle.ppd_flow_tables.specs.declared.marks.Mark.TheVariants as mark;

use crate::edge_table::EdgeTable;
use crate::marks::{Mark, list_items};
use crate::place_table::{PlaceTable, Stops};
use ppd_ast::{Ids, Memory, Seq};
use ppd_flow_past::number;
use ppd_model::Item;
use std::alloc::Global;

fn sum_of(a: u32, b: u32) -> Result<u32, Memory>
    ensures { IfOk result (λ sum. sum ≡ a + b) }
{
    match a.checked_add(b) {
        Some(sum) => Ok(sum),
        None => Err(Memory),
    }
}

/// The edges of the places of an interval.
fn edges_of(alloc: Global, edges: &EdgeTable, interval: u32, items: &[Item]) -> Result<Ids, Memory>
    requires { length items.now < 2 ^ 32 }
    ensures long { IfOk result (λ numbers. length numbers ≡ length items.now + 1) }
    ensures are { IfOk result (λ numbers. (entries : List Entry) → IsEdgeTable entries edges.now
        → AreEdges entries interval items.now numbers) }
{
    let mut edge = edges.first_edge(interval);
    let mut numbers = Seq::new(alloc);
    numbers.push(edge)?;
    for item in items {
        edge = sum_of(edge, edges.syncs_of_item(item))?;
        numbers.push(edge)?;
    }
    Ok(numbers)
}

fn stops_of(alloc: Global, edges: &[u32], items: &[Item]) -> Result<Stops, Memory>
    requires few { length items.now < 2 ^ 32 }
    requires edges { length items.now < length edges.now }
    ensures writes { IfOk result (λ stops. AreWhere (is_marked mark.Write edges.now items.now) stops.writes.keys) }
    ensures borders { IfOk result (λ stops. AreWhere (is_marked mark.Border edges.now items.now) stops.borders.keys) }
{
    let writes = list_items(alloc, Mark::Write, edges, items)?;
    let borders = list_items(alloc, Mark::Border, edges, items)?;
    Ok(Stops { writes, borders })
}

/// The table of an interval with these items, by the edges of their places.
fn table_of(alloc: Global, count: u32, edges: Ids, items: &[Item]) -> Result<PlaceTable, Memory>
    requires count { count ≡ length items.now }
    requires edges { length items.now < length edges }
    ensures { IfOk result (λ table. (entries : List Entry) (k : ℕ) → AreEdges entries k items.now edges
        → IsPlaceTable entries k items.now table) }
{
    let syncs = list_items(alloc, Mark::Sync, edges.as_slice(), items)?;
    let inner = list_items(alloc, Mark::Inner, edges.as_slice(), items)?;
    let stops = stops_of(alloc, edges.as_slice(), items)?;
    Ok(PlaceTable {
        count,
        edges,
        syncs,
        inner,
        stops,
    })
}

impl PlaceTable {
    /// The table of an interval, whose items these are, of the process with these edges, in steps that are linear in
    /// the items but for the sort of those that are listed. `Memory` is want of memory, also for items and edges that
    /// have no 32-bit numbers.
    pub fn new(
        alloc: Global,
        edges: &EdgeTable,
        interval: u32,
        items: &[Item],
    ) -> Result<PlaceTable, Memory>
        ensures { IfOk result (λ table. (entries : List Entry) → IsEdgeTable entries edges.now
            → IsPlaceTable entries interval items.now table) }
    {
        let count = number(items.len())?;
        let numbers = edges_of(alloc, edges, interval, items)?;
        table_of(alloc, count, numbers, items)
    }
}
