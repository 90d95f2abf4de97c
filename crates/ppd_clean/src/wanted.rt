// The edges that are wanted for an item.
ghost use Rattle.std.specs.Prelude.{◌≡◌, ◌&&◌, not, if◌then◌else◌};
ghost use Rattle.ppd_clean.specs.ByOrder.{is_wanted as is_wanted_of, last_before as last_before_of, last_wanted as last_wanted_of, later as later_of, own_last as own_last_of};
ghost use Rattle.ppd_flow_past.specs.Pasts.{IsPast};

use crate::by_order::is_raced_to;
use ppd_clean_past::{Asked, last_edge};
use ppd_flow_past::Past;
use ppd_graph::SyncGraph;
use ppd_model::EdgeId;

/// Of the item's own process the last edge before the first whose past has a race, and the last of all where none has.
fn own_last(last: u32, first: Option<u32>) -> Option<u32>
    ensures { result ≡ own_last_of last first }
{
    match first {
        None => Some(last),
        Some(edge) => { if edge == 0 { None } else { Some(edge - 1) } }
    }
}

/// Whether an edge is before this one, and no race has it or an edge before it in its process.
fn is_wanted(graph: &SyncGraph, firsts: &[EdgeId], top: EdgeId, edge: EdgeId) -> bool
    ensures { result ≡ is_wanted_of graph.now firsts.now top edge }
{
    graph.before(edge, top) && !is_raced_to(firsts, edge)
}

fn later(test: bool, edge: u32, found: Option<u32>) -> Option<u32>
    ensures { result ≡ later_of test edge found }
{
    if test { Some(edge) } else { found }
}

/// The last edge of another process that is wanted, of so many.
fn last_before(
    graph: &SyncGraph,
    firsts: &[EdgeId],
    top: EdgeId,
    process: u8,
    count: u32,
) -> Option<u32>
    ensures { result ≡ last_before_of graph.now firsts.now top process count }
{
    let mut last = None;
    for edge in 0..count {
        let wanted = is_wanted(graph, firsts, top, EdgeId { process, edge });
        last = later(wanted, edge, last);
    }
    last
}

/// The last edge of a process that is wanted for what is asked.
pub(crate) fn last_wanted(past: &Past, asked: &Asked, process: u8) -> Option<u32>
    requires { IsPast past.now }
    ensures { result ≡ last_wanted_of past.now asked.now process }
{
    let own = last_edge(past, asked.process);
    if process == asked.process {
        return own_last(own, asked.first);
    }
    let top = EdgeId {
        process: asked.process,
        edge: asked.first.unwrap_or(own),
    };
    last_before(
        past.graph,
        asked.firsts,
        top,
        process,
        last_edge(past, process),
    )
}
