ghost use Rattle.std.specs.Prelude.{◌≡◌, ◌+◌, IfOk, sum_by, get_or, []};
ghost use Rattle.ppd_flow_past.specs.Pasts.{IsPast};
ghost use Rattle.ppd_graph.specs.Ends.{first_edge as first_edge_of, syncs_inside as syncs_inside_of, syncs_of_item as syncs_of};
ghost use Rattle.ppd_model.specs.Extents.{extents};
ghost use Rattle.std.specs.Prelude.{slice_get};

use crate::past::Past;
use crate::replaying::number;
use crate::syncs::{entries_of, syncs_before, syncs_between};
use ppd_ast::Memory;
use ppd_model::Item;

/// The edge in which an interval begins.
pub(crate) fn first_edge(past: &Past, process: u8, interval: u32) -> usize
    requires { IsPast past.now }
    ensures { result ≡ first_edge_of (get_or past.now.logs.now.lists process []) interval }
{
    match past.index.interval(process, interval) {
        Some(found) => syncs_before(entries_of(past.logs, process), found.first),
        None => 0,
    }
}

/// How many synchronizations an interval has, with those of the intervals inside it.
fn syncs_inside(past: &Past, process: u8, interval: u32) -> usize
    requires { IsPast past.now }
    ensures { result
        ≡ syncs_inside_of (get_or past.now.logs.now.lists process [])
        (slice_get (extents (get_or past.now.logs.now.lists process [])) interval) }
{
    match past.index.interval(process, interval) {
        Some(found) => syncs_between(entries_of(past.logs, process), found.first, found.last),
        None => 0,
    }
}

/// How many synchronizations an item has.
pub(crate) fn syncs_of_item(past: &Past, process: u8, item: &Item) -> usize
    requires { IsPast past.now }
    ensures { result ≡ syncs_of (get_or past.now.logs.now.lists process []) item.now }
{
    match item {
        Item::Own(event) => { if event.number.is_some() { 1 } else { 0 } }
        Item::Nested { interval, .. } => syncs_inside(past, process, *interval),
    }
}

/// The sum of two counts. `Memory` where it has more than 64 bits.
pub(crate) fn sum_of(a: usize, b: usize) -> Result<usize, Memory>
    ensures { IfOk result (λ sum. sum ≡ a + b) }
{
    match a.checked_add(b) {
        Some(sum) => Ok(sum),
        None => Err(Memory),
    }
}

/// The internal edge in which the place after these items of an interval lies: how many synchronizations the process
/// did before it. `Memory` is want of memory, also for a number of more than 32 bits.
pub fn edge_at(past: &Past, process: u8, interval: u32, before: &[Item]) -> Result<u32, Memory>
    requires { IsPast past.now }
    ensures { IfOk result (λ edge. edge
        ≡ first_edge_of (get_or past.now.logs.now.lists process []) interval
        + sum_by (syncs_of (get_or past.now.logs.now.lists process [])) before.now) }
{
    let mut edge = first_edge(past, process, interval);
    for item in before {
        edge = sum_of(edge, syncs_of_item(past, process, item))?;
    }
    number(edge)
}
