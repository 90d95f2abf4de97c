// The internal edge in which an item lies.
ghost use Rattle.std.specs.Prelude.{◌≡◌, IfOk, take, get_or, []};
ghost use Rattle.ppd_clean.specs.ByOrder.{edge_of_item as edge_of_item_in, left_at as left_at_of};
ghost use Rattle.ppd_flow_past.specs.Pasts.{IsPast};
ghost use Rattle.ppd_flow_past.specs.SeenBy.{items_in, seen_in};
ghost use Rattle.law_clean.specs.Pasts.{left_edge as left_edge_of};

use crate::syncs::syncs_before;
use ppd_ast::Memory;
use ppd_clean_past::{Asked, last_edge};
use ppd_flow_past::{Past, edge_at, entries_of, number};
use ppd_index::Interval;
use ppd_model::Item;

/// The edge in which an interval that is there is left.
fn left_at(past: &Past, process: u8, found: Interval) -> Result<u32, Memory>
    requires { IsPast past.now }
    ensures { IfOk result (λ edge. edge ≡ left_at_of past.now.logs.now process found) }
{
    if found.closed {
        number(syncs_before(entries_of(past.logs, process), found.last))
    } else {
        Ok(last_edge(past, process))
    }
}

/// The edge in which an interval is left: that of its postlog, and the process's last edge where it has none. `Memory`
/// where it has more than 32 bits.
pub(crate) fn left_edge(past: &Past, process: u8, interval: u32) -> Result<u32, Memory>
    requires { IsPast past.now }
    ensures { IfOk result (λ edge. edge ≡ left_edge_of (get_or past.now.logs.now.lists process []) interval) }
{
    match past.index.interval(process, interval) {
        None => Ok(0),
        Some(found) => left_at(past, process, found),
    }
}

/// The last edge in which a step of an item lies, the one that is asked, after those before it in its interval.
pub(crate) fn edge_of_item(
    past: &Past,
    asked: &Asked,
    before: &[Item],
    item: &Item,
) -> Result<u32, Memory>
    requires past { IsPast past.now }
    requires before { before.now ≡ take asked.now.item (items_in past.now asked.now.process asked.now.interval) }
    ensures { IfOk result
        (λ edge. edge ≡ edge_of_item_in past.now asked.now (seen_in past.now asked.now.process) item.now) }
{
    match item {
        Item::Own(_) => edge_at(past, asked.process, asked.interval, before),
        Item::Nested { interval, .. } => left_edge(past, asked.process, *interval),
    }
}
