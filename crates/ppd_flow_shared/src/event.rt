ghost use Rattle.std.specs.Prelude.{◌≡◌};
ghost use Rattle.ppd_graph.specs.Walk.{is_shared as is_shared_cell, over_event as over_event_of, value_to as value_written};

use ppd_graph::Walked;
use ppd_sem::{Access, Event, Spot};

fn is_shared(cell: u16, spot: Spot) -> bool
    ensures { result ≡ is_shared_cell cell spot }
{
    match spot {
        Spot::Shared(written) => cell == written,
        Spot::Local { .. } => false,
    }
}

/// The value that is written to the cell first.
fn value_to(cell: u16, accesses: &[Access]) -> Option<i64>
    ensures { result ≡ value_written cell accesses.now }
{
    for access in accesses {
        if is_shared(cell, access.spot) {
            return Some(access.value);
        }
    }
    None
}

/// What an event is to the walk: a synchronization, a write of the cell, or neither.
pub(crate) fn over_event(cell: u16, interval: u32, item: u32, event: &Event) -> Walked
    ensures { result ≡ over_event_of cell interval item event.now }
{
    if event.number.is_some() {
        return Walked::Stopped;
    }
    match value_to(cell, event.writes.as_slice()) {
        Some(value) => Walked::Found {
            interval,
            item,
            value,
        },
        None => Walked::Passed,
    }
}
