ghost use Rattle.std.specs.Prelude.{◌≡◌, ◌&&◌, IfOk, nat_eq, nat_lt, slice_get, Some, None};
ghost use Rattle.ppd_ast.specs.Members.{has};
ghost use Rattle.ppd_flow_past.specs.Edges.Found.{IsEdgeIf, greater_if as greater_with, greatest_from, greatest_in, is_within as is_in_limit};
ghost use Rattle.ppd_graph.specs.Graphs.{IsEdge};
ghost use Rattle.ppd_flow_past.specs.Pasts.{IsPast};
ghost use Rattle.ppd_graph.specs.Shared.{greater as greater_of, greatest_before as greatest_before_of, greatest_writing as greatest_of_all, is_before_in};

use crate::past::Past;
use crate::replaying::number;
use ppd_ast::Memory;
use ppd_graph::EdgeSets;
use ppd_model::EdgeId;

fn writes_cell(writes: &[u16], cell: u16) -> bool
    ensures { result ≡ has writes.now cell }
{
    writes.contains(&cell)
}

fn is_earlier(a: EdgeId, b: EdgeId) -> bool
    ensures { result ≡ (nat_eq a.process b.process && nat_lt a.edge b.edge) }
{
    a.process == b.process && a.edge < b.edge
}

/// Whether an edge of the graph is before another one, which need not be one of the graph.
fn is_before(past: &Past, a: EdgeId, b: EdgeId) -> bool
    requires past { IsPast past.now }
    requires a { IsEdge past.now.graph.now a }
    ensures { result ≡ is_before_in past.now.program.now past.now.logs.now a b }
{
    if b.edge < past.graph.edges(b.process) {
        past.graph.before(a, b)
    } else {
        is_earlier(a, b)
    }
}

fn is_within(past: &Past, limit: Option<EdgeId>, a: EdgeId) -> bool
    requires past { IsPast past.now }
    requires a { IsEdge past.now.graph.now a }
    ensures { result ≡ is_in_limit (is_before_in past.now.program.now past.now.logs.now) limit a }
{
    match limit {
        Some(limit) => is_before(past, a, limit),
        None => true,
    }
}

fn greater(past: &Past, best: Option<EdgeId>, a: EdgeId) -> EdgeId
    requires past { IsPast past.now }
    requires best { IsEdgeIf past.now.graph.now best }
    requires a { IsEdge past.now.graph.now a }
    ensures is { Some result ≡ greater_of (is_before_in past.now.program.now past.now.logs.now) best a }
    ensures there { IsEdge past.now.graph.now result }
{
    match best {
        Some(best) => { if is_before(past, best, a) { a } else { best } }
        None => a,
    }
}

/// What is searched: the edges that write a cell, and are before the limit where there is one.
#[derive(Clone, Copy)]
struct Writing {
    cell: u16,
    limit: Option<EdgeId>,
}

fn greater_if(
    past: &Past,
    search: &Writing,
    best: Option<EdgeId>,
    a: EdgeId,
    writes: &[u16],
) -> Option<EdgeId>
    requires past { IsPast past.now }
    requires best { IsEdgeIf past.now.graph.now best }
    requires a { IsEdge past.now.graph.now a }
    ensures is { result
        ≡ greater_with (is_before_in past.now.program.now past.now.logs.now) search.now.cell search.now.limit best a
        writes.now }
    ensures there { IsEdgeIf past.now.graph.now result }
{
    if writes_cell(writes, search.cell) && is_within(past, search.limit, a) {
        Some(greater(past, best, a))
    } else {
        best
    }
}

fn greatest_of(
    past: &Past,
    search: &Writing,
    process: u8,
    found: Option<EdgeId>,
    sets: &[EdgeSets],
) -> Result<Option<EdgeId>, Memory>
    requires past { IsPast past.now }
    requires found { IsEdgeIf past.now.graph.now found }
    requires sets { slice_get past.now.graph.now.edges process ≡ Some sets.now }
    ensures is { IfOk result (λ best. best
        ≡ greatest_in (is_before_in past.now.program.now past.now.logs.now) search.now.cell search.now.limit process 0
        found sets.now) }
    ensures there { IfOk result (IsEdgeIf past.now.graph.now) }
{
    let mut best = found;
    for (i, own) in sets.iter().enumerate() {
        let edge = number(i)?;
        best = greater_if(
            past,
            search,
            best,
            EdgeId { process, edge },
            own.writes.as_slice(),
        );
    }
    Ok(best)
}

/// The greatest edge of all processes. `Memory` also where a process has no 8-bit number.
fn greatest(past: &Past, search: &Writing) -> Result<Option<EdgeId>, Memory>
    requires past { IsPast past.now }
    ensures is { IfOk result (λ best. best
        ≡ greatest_from (is_before_in past.now.program.now past.now.logs.now) search.now.cell search.now.limit 0 None
        past.now.graph.now.edges) }
    ensures there { IfOk result (IsEdgeIf past.now.graph.now) }
{
    let mut best = None;
    for (p, sets) in past.graph.edge_sets().iter().enumerate() {
        let Ok(process) = u8::try_from(p) else {
            return Err(Memory);
        };
        best = greatest_of(past, search, process, best, sets.as_slice())?;
    }
    Ok(best)
}

/// The greatest internal edge by happened-before among those that are before an edge and whose recorded write set has
/// the cell, if there is one: in a run without a race, the edge in which a value was written that the edge reads.
/// `Memory` is want of memory, also for edges that have no numbers.
pub fn greatest_before(past: &Past, edge: EdgeId, cell: u16) -> Result<Option<EdgeId>, Memory>
    requires { IsPast past.now }
    ensures is { IfOk result (λ best. best
        ≡ greatest_before_of past.now.program.now past.now.logs.now edge cell) }
    ensures there { IfOk result (IsEdgeIf past.now.graph.now) }
{
    greatest(
        past,
        &Writing {
            cell,
            limit: Some(edge),
        },
    )
}

/// The greatest internal edge by happened-before whose recorded write set has the cell, if there is one. `Memory` is
/// want of memory, also for edges that have no numbers.
pub fn greatest_writing(past: &Past, cell: u16) -> Result<Option<EdgeId>, Memory>
    requires { IsPast past.now }
    ensures is { IfOk result (λ best. best ≡ greatest_of_all past.now.program.now past.now.logs.now cell) }
    ensures there { IfOk result (IsEdgeIf past.now.graph.now) }
{
    greatest(past, &Writing { cell, limit: None })
}
