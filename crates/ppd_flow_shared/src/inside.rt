ghost use Rattle.std.specs.Prelude.{◌≡◌, get_or, []};
ghost use Rattle.ppd_graph.specs.Shared.{in_process};
ghost use Rattle.ppd_graph.specs.Walk.{at_item, back, back_from, back_over};
ghost use Rattle.ppd_flow_shared.specs.Items.{is_passed as is_start, seen_for};
ghost use Rattle.ppd_flow_shared.specs.SharedCells.{IsSought};
ghost use Rattle.ppd_flow_tables.specs.Tabled.{IsTabled};

use crate::event::over_event;
use crate::search::CellSearch;
use ppd_ast::Steps;
use ppd_flow_tables::{FlowError, interval_items, number, stop_before};
use ppd_graph::Walked;
use ppd_model::Item;
use std::sync::ledger::Ledger;

/// Whether the walk came to the start of what it went over.
pub(crate) fn is_passed(walked: Walked) -> bool
    ensures { result ≡ is_start walked }
{
    matches!(walked, Walked::Passed)
}

/// Walks back over the items of an interval before a place; intervals inside are walked over in their turn, `depth` of
/// them in one another at most.
#[cycle(walk)]
pub(crate) fn over_items<L: Ledger>(
    search: &CellSearch,
    depth: u32,
    interval: u32,
    items: &[Item],
    place: usize,
    steps: &mut Steps<L>,
) -> Result<Walked, FlowError>
    requires past { IsTabled search.now.past.now search.now.tables }
    requires items { items.now ≡ get_or (seen_for search.now).items interval [] }
    ensures { IsSought search.now.past.now
        (in_process search.now.process
        (back_over (back depth (seen_for search.now) search.now.cell) search.now.cell interval
        (back_from place items.now)))
        steps.old steps.new result }
{
    let CellSearch {
        tables,
        process,
        cell,
        ..
    } = *search;
    let mut left = place;
    while let Some(at) = stop_before(&tables, process, interval, items, cell, left) {
        let walked = over_item(search, depth, (interval, at), &items[at], steps)?;
        if !is_passed(walked) {
            return Ok(walked);
        }
        left = at;
    }
    Ok(Walked::Passed)
}

// Walks over one item, by its interval and its number there.
#[cycle(walk)]
fn over_item<L: Ledger>(
    search: &CellSearch,
    depth: u32,
    place: (u32, usize),
    item: &Item,
    steps: &mut Steps<L>,
) -> Result<Walked, FlowError>
    requires { IsTabled search.now.past.now search.now.tables }
    ensures { IsSought search.now.past.now
        (in_process search.now.process
        (at_item (back depth (seen_for search.now) search.now.cell) search.now.cell place.0 place.1 item.now))
        steps.old steps.new result }
{
    match item {
        Item::Own(event) => {
            let at = number(place.1)?;
            Ok(over_event(search.cell, place.0, at, event))
        }
        Item::Nested { interval, .. } => over_interval(search, depth, *interval, steps),
    }
}

// Walks over a whole interval, which is replayed if it is not kept.
#[cycle(walk)]
fn over_interval<L: Ledger>(
    search: &CellSearch,
    depth: u32,
    interval: u32,
    steps: &mut Steps<L>,
) -> Result<Walked, FlowError>
    requires { IsTabled search.now.past.now search.now.tables }
    ensures { IsSought search.now.past.now
        (in_process search.now.process (back depth (seen_for search.now) search.now.cell interval))
        steps.old steps.new result }
{
    if depth == 0 {
        return Ok(Walked::Passed);
    }
    let items = interval_items(search.alloc, search.past, search.process, interval, steps)?;
    let items = items.as_slice();
    over_items(search, depth - 1, interval, items, items.len(), steps)
}
