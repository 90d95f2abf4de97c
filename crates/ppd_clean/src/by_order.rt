// The pasts of internal edges by the graph of a recording, and whether a race touches them.
ghost use Rattle.std.specs.Prelude.{◌≡◌};
ghost use Rattle.ppd_clean.specs.ByOrder.{first_unclean as first_unclean_of, has_race as has_race_of, is_raced_to as is_raced_to_of};
ghost use Rattle.ppd_clean_past.specs.ByOrder.{last_edge as last_edge_of};
ghost use Rattle.ppd_flow_past.specs.Pasts.{IsPast};

use ppd_clean_past::{is_in_past, last_edge};
use ppd_flow_past::Past;
use ppd_graph::SyncGraph;
use ppd_model::EdgeId;

/// Whether the past of an edge has one of these.
fn has_race(graph: &SyncGraph, firsts: &[EdgeId], edge: EdgeId) -> bool
    ensures { result ≡ has_race_of graph.now firsts.now edge }
{
    for first in firsts {
        if is_in_past(graph, edge, *first) {
            return true;
        }
    }
    false
}

/// The least edge of a process, from this one on, whose past has one of these.
pub(crate) fn first_unclean(past: &Past, firsts: &[EdgeId], process: u8, from: u32) -> Option<u32>
    requires { IsPast past.now }
    ensures { result
        ≡ first_unclean_of past.now.graph.now firsts.now process from (last_edge_of past.now.logs.now process) }
{
    let last = last_edge(past, process);
    for edge in from..last + 1 {
        if has_race(past.graph, firsts, EdgeId { process, edge }) {
            return Some(edge);
        }
    }
    None
}

/// Whether one of these is this edge, or before it in its process.
pub(crate) fn is_raced_to(firsts: &[EdgeId], edge: EdgeId) -> bool
    ensures { result ≡ is_raced_to_of firsts.now edge }
{
    for first in firsts {
        if first.process == edge.process && first.edge <= edge.edge {
            return true;
        }
    }
    false
}
