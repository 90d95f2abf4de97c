ghost use Rattle.std.specs.Prelude.{◌≡◌, ◌&&◌, IfOk, nat_le, nat_lt, slice_get, if◌then◌else◌, get_or, []};
ghost use Rattle.ppd_flow_past.specs.Edges.Found.{stands_there};
ghost use Rattle.ppd_model.specs.Extents.{extents};
ghost use Rattle.ppd_flow_past.specs.Pasts.{IsPast};
ghost use Rattle.ppd_graph.specs.Ends.{end_interval as end_interval_of, ending as ending_in, ends_edge as ends_an_edge, first_edge as first_edge_of, is_sync_item as is_sync_there, sync_item as sync_item_in, innermost_from};

use crate::past::Past;
use crate::places::{first_edge, sum_of, syncs_of_item};
use crate::syncs::{entries_of, is_sync};
use ppd_ast::Memory;
use ppd_model::{Entry, Item};

fn ends_edge(entry: &Entry) -> bool
    ensures { result ≡ ends_an_edge entry.now }
{
    matches!(entry, Entry::Sync { .. } | Entry::End { .. })
}

/// The number of the entry that ends an internal edge: the synchronization, or the end for a last edge; and the count
/// of the entries where none ends it.
pub fn ending(edge: u32, entries: &[Entry]) -> usize
    ensures { result ≡ ending_in edge entries.now }
{
    let mut left = edge;
    for (n, entry) in entries.iter().enumerate() {
        if left == 0 {
            if ends_edge(entry) {
                return n;
            }
        } else if is_sync(entry) {
            left -= 1;
        }
    }
    entries.len()
}

/// Whether entry `n` is after the first of these and not after the last.
fn stands_between(first: u32, last: u32, n: usize) -> bool
    ensures { result ≡ (nat_lt first n && nat_le n last) }
{
    (first as usize) < n && n <= last as usize
}

/// Whether entry `n` stands in the interval, if that is there.
fn stands_in(past: &Past, process: u8, interval: u32, n: usize) -> bool
    requires { IsPast past.now }
    ensures { result ≡ stands_there n (slice_get (extents (get_or past.now.logs.now.lists process [])) interval) }
{
    match past.index.interval(process, interval) {
        Some(found) => stands_between(found.first, found.last, n),
        None => false,
    }
}

fn chosen(test: bool, first: u32, otherwise: u32) -> u32
    ensures { result ≡ (if test then first else otherwise) }
{
    if test { first } else { otherwise }
}

/// The innermost interval of a process at an entry, and interval 0 where the entry stands in none.
fn innermost_at(past: &Past, process: u8, n: usize) -> u32
    requires { IsPast past.now }
    ensures { result ≡ innermost_from n 0 0 (extents (get_or past.now.logs.now.lists process [])) }
{
    let mut innermost = 0;
    for interval in 0..past.index.count(process) {
        innermost = chosen(stands_in(past, process, interval, n), interval, innermost);
    }
    innermost
}

/// The interval in which an internal edge of a process ends: the innermost at the synchronization that ends it; of a
/// last edge the innermost that was not left, or interval 0.
pub fn end_interval(past: &Past, process: u8, edge: u32) -> u32
    requires { IsPast past.now }
    ensures { result ≡ end_interval_of (get_or past.now.logs.now.lists process []) edge }
{
    innermost_at(past, process, ending(edge, entries_of(past.logs, process)))
}

/// Whether an item is a synchronization.
pub fn is_sync_item(item: &Item) -> bool
    ensures { result ≡ is_sync_there item.now }
{
    match item {
        Item::Own(event) => event.number.is_some(),
        Item::Nested { .. } => false,
    }
}

/// The place where an internal edge ends, among the items of the interval in which it ends: the item that is its
/// synchronization, and the place after all of them where none is. `Memory` is want of memory, also for a number of
/// more than 64 bits.
pub fn sync_item(
    past: &Past,
    process: u8,
    edge: u32,
    interval: u32,
    items: &[Item],
) -> Result<usize, Memory>
    requires { IsPast past.now }
    ensures { IfOk result (λ place. place
        ≡ sync_item_in (get_or past.now.logs.now.lists process []) edge
        (first_edge_of (get_or past.now.logs.now.lists process []) interval) items.now) }
{
    let mut current = first_edge(past, process, interval);
    for (place, item) in items.iter().enumerate() {
        if is_sync_item(item) && current == edge as usize {
            return Ok(place);
        }
        current = sum_of(current, syncs_of_item(past, process, item))?;
    }
    Ok(items.len())
}
