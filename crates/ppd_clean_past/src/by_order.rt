// Internal edges in and before others, by the graph of a recording.
ghost use Rattle.std.specs.Prelude.{◌≡◌, ◌+◌, ◌<◌, ◌^◌};
ghost use Rattle.ppd_clean_past.specs.ByOrder.{ends_before as ends_before_of, is_in_past as is_in_past_of, last_edge as last_edge_of, leads_from_race as leads_of};
ghost use Rattle.ppd_flow_past.specs.Pasts.{IsPast};
ghost use Rattle.ppd_model.specs.HappenedBefore.{edge as edge_of};

use ppd_flow_past::Past;
use ppd_graph::SyncGraph;
use ppd_model::EdgeId;

/// The number of a process's last edge: how many synchronizations it did.
pub fn last_edge(past: &Past, process: u8) -> u32
    requires { IsPast past.now }
    ensures is { result ≡ last_edge_of past.now.logs.now process }
    ensures small { result + 1 < 2 ^ 32 }
{
    let edges = past.graph.edges(process);
    if edges == 0 { 0 } else { edges - 1 }
}

/// Whether edge `a` is this one or before it.
pub fn is_in_past(graph: &SyncGraph, edge: EdgeId, a: EdgeId) -> bool
    ensures { result ≡ is_in_past_of graph.now edge a }
{
    a.process == edge.process && a.edge == edge.edge || graph.before(a, edge)
}

/// Whether edge `a` ends before the synchronization that ends this one, and begins the next.
fn ends_before(graph: &SyncGraph, edge: EdgeId, next: EdgeId, a: EdgeId) -> bool
    requires { next ≡ edge_of edge.process (edge.edge + 1) }
    ensures { result ≡ ends_before_of graph.now edge a }
{
    if a.process == edge.process {
        a.edge < edge.edge
    } else {
        graph.before(a, next)
    }
}

/// Whether one of these ends before the synchronization that ends an edge of a process, whose last edge is `last`.
pub(crate) fn leads_from_race(graph: &SyncGraph, firsts: &[EdgeId], last: u32, edge: EdgeId) -> bool
    ensures { result ≡ leads_of graph.now firsts.now last edge }
{
    if last <= edge.edge {
        return false;
    }
    let next = EdgeId {
        process: edge.process,
        edge: edge.edge + 1,
    };
    for first in firsts {
        if ends_before(graph, edge, next, *first) {
            return true;
        }
    }
    false
}
