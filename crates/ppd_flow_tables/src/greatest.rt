// The greatest internal edge before another one that writes a cell.
ghost use Rattle.std.specs.Prelude.{◌≡◌, ◌<◌, ◌≤◌, ◌+◌, ◌*◌, ◌^◌, [], IfSome, Some, get_or, length};
ghost use Rattle.ppd_flow_tables.specs.LatestEdges.{last_below as last_below_of, later_if, limit_of, numbers_in};
ghost use Rattle.ppd_graph.specs.Shared.{greater as greater_of, greatest_before as greatest_before_of, is_before_in};
ghost use Rattle.ppd_flow_past.specs.Edges.Found.{IsEdgeIf};
ghost use Rattle.ppd_flow_past.specs.Pasts.{IsPast};
ghost use Rattle.ppd_graph.specs.Graphs.{IsEdge, edge_count};
ghost use Rattle.ppd_flow_tables.specs.Writing.{AreWritingEdges};

use crate::by_cell::WritingEdges;
use crate::halves::last_below;
use ppd_ast::Steps;
use ppd_flow_past::Past;
use ppd_graph::SyncGraph;
use ppd_model::EdgeId;
use std::marker::Brand;
use std::sync::ledger::{Blank, Ledger};

/// How many edges of a process are before an edge; of another process none are before an edge that is not there.
fn limit(graph: &SyncGraph, edge: EdgeId, process: u8) -> u32
    requires { edge_count graph.now edge.process < 2 ^ 32 }
    ensures { result ≡ limit_of graph.now edge process }
{
    if process == edge.process {
        return edge.edge;
    }
    if edge.edge < graph.edges(edge.process) {
        graph.edges_before(edge, process)
    } else {
        0
    }
}

/// The greater of two edges of the graph: the second where the first is before it.
fn greater(past: &Past, best: EdgeId, edge: EdgeId) -> EdgeId
    requires past { IsPast past.now }
    requires best { IsEdge past.now.graph.now best }
    requires edge { IsEdge past.now.graph.now edge }
    ensures is { Some result ≡ greater_of (is_before_in past.now.program.now past.now.logs.now) (Some best) edge }
    ensures there { IsEdge past.now.graph.now result }
{
    if past.graph.before(best, edge) {
        edge
    } else {
        best
    }
}

/// The greater of the best edge so far and this edge of a process, where there is one.
fn later(past: &Past, best: Option<EdgeId>, process: u8, last: Option<u32>) -> Option<EdgeId>
    requires past { IsPast past.now }
    requires best { IsEdgeIf past.now.graph.now best }
    requires last { IfSome last (λ n. n < edge_count past.now.graph.now process) }
    ensures is { result ≡ later_if (is_before_in past.now.program.now past.now.logs.now) process best last }
    ensures there { IsEdgeIf past.now.graph.now result }
{
    match last {
        Some(edge) => match best {
            Some(best) => Some(greater(past, best, EdgeId { process, edge })),
            None => Some(EdgeId { process, edge }),
        },
        None => best,
    }
}

impl WritingEdges {
    fn edges_of(&self, process: u8, cell: u16) -> &[u32]
        ensures { result.now ≡ get_or (get_or self.now.rows process []) cell [] }
    {
        match self.rows.get(process as usize) {
            Some(lists) => match lists.get(cell as usize) {
                Some(edges) => edges.as_slice(),
                None => &[],
            },
            None => &[],
        }
    }

    /// The last edge of a process that writes a cell and is before an edge.
    fn last_of<L: Ledger>(
        &self,
        past: &Past,
        edge: EdgeId,
        cell: u16,
        process: u8,
        steps: &mut Steps<L>,
    ) -> Option<u32>
        requires past { IsPast past.now }
        requires edges { AreWritingEdges past.now.graph.now.edges self.now }
        ensures last { result
            ≡ last_below_of (limit_of past.now.graph.now edge process)
            (numbers_in cell 0 (get_or past.now.graph.now.edges process [])) }
        ensures there { IfSome result (λ n. n < edge_count past.now.graph.now process) }
        ensures cost { steps.new ≤ steps.old + 64 }
    {
        let below = limit(past.graph, edge, process);
        last_below(self.edges_of(process, cell), below, steps)
    }

    /// The greatest internal edge by happened-before among those that are before an edge and whose recorded write set
    /// has the cell, if there is one. It takes at most 65 steps for each process.
    pub fn greatest_before<L: Ledger>(
        &self,
        past: &Past,
        edge: EdgeId,
        cell: u16,
        steps: &mut Steps<L>,
    ) -> Option<EdgeId>
        requires past { IsPast past.now }
        requires edges { AreWritingEdges past.now.graph.now.edges self.now }
        ensures is { result ≡ greatest_before_of past.now.program.now past.now.logs.now edge cell }
        ensures cost { steps.new ≤ steps.old + 65 * length past.now.graph.now.edges }
    {
        let mut best = None;
        for process in 0..self.rows.len() {
            steps.tick();
            let last = self.last_of(past, edge, cell, process as u8, steps);
            best = later(past, best, process as u8, last);
        }
        best
    }

    /// The same edge, with steps that nobody reads.
    fn greatest_from<L: Ledger>(
        &self,
        past: &Past,
        edge: EdgeId,
        cell: u16,
        blank: Blank,
    ) -> Option<EdgeId>
        requires past { IsPast past.now }
        requires edges { AreWritingEdges past.now.graph.now.edges self.now }
        requires name { blank.name ≡ L.name }
        requires parts { blank.parts ≡ L.parts }
        requires some { 0 < blank.parts }
        ensures { result ≡ greatest_before_of past.now.program.now past.now.logs.now edge cell }
    {
        let mut steps: Steps<L> = Steps::new(blank);
        self.greatest_before(past, edge, cell, &mut steps)
    }

    /// The edge that `greatest_before` finds, in as many steps, which are not counted.
    pub fn greatest_uncounted(&self, past: &Past, edge: EdgeId, cell: u16) -> Option<EdgeId>
        requires past { IsPast past.now }
        requires edges { AreWritingEdges past.now.graph.now.edges self.now }
        ensures { result ≡ greatest_before_of past.now.program.now past.now.logs.now edge cell }
    {
        self.greatest_from::<Brand>(past, edge, cell, Blank::new(1))
    }
}
