ghost use Rattle.std.specs.Prelude.{◌≡◌, ◌<◌, ◌^◌};
ghost use Rattle.ppd_graph.specs.Graphs.{IsEdge, count_at, edge_count, is_before_by, reads_in, writes_in};
ghost use Rattle.ppd_graph.specs.Times.{pair_at};

use crate::paired::Paired;
use crate::sets::EdgeSets;
use crate::times::{count_at, partner_at};
use ppd_ast::{Ids, Seq};
use ppd_model::{EdgeId, NodeId};

/// The synchronizations of logs in their order: of each its vector time and its partner, and of each internal
/// edge the cells that it accesses.
#[derive(Drop)]
pub struct SyncGraph {
    pub(crate) edges: Seq<Seq<EdgeSets>>,
    pub(crate) times: Seq<Seq<Ids>>,
    pub(crate) pairs: Seq<Seq<Paired>>,
}

impl SyncGraph {
    /// How many internal edges a process has: one more than its synchronizations; 0 past the processes. The graph of
    /// logs has fewer than 2^32 of each.
    pub fn edges(&self, p: u8) -> u32
        ensures { edge_count self.now p < 2 ^ 32 → result ≡ edge_count self.now p }
    {
        match self.edges.get(p as usize) {
            Some(own) => u32::try_from(own.len()).unwrap_or(u32::MAX),
            None => 0,
        }
    }

    /// How many edges of another process are before this one.
    pub fn edges_before(&self, e: EdgeId, process: u8) -> u32
        ensures { result ≡ count_at self.now.times e.process e.edge process }
    {
        if e.edge == 0 {
            return 0;
        }
        count_at(
            self.times.as_slice(),
            e.process as usize,
            e.edge as usize - 1,
            process as usize,
        )
    }

    /// Whether edge `a` is before edge `b`: Lamport's happened-before (1978), by one number of a vector time.
    pub fn before(&self, a: EdgeId, b: EdgeId) -> bool
        ensures { result ≡ is_before_by self.now a b }
    {
        if a.process == b.process {
            a.edge < b.edge
        } else {
            a.edge < self.edges_before(b, a.process)
        }
    }

    /// The recorded sets of all edges, a list for each process.
    pub fn edge_sets(&self) -> &[Seq<EdgeSets>]
        ensures { result.now ≡ self.now.edges }
    {
        self.edges.as_slice()
    }

    /// The cells that an edge reads.
    pub fn reads(&self, e: EdgeId) -> &[u16]
        requires { IsEdge self.now e }
        ensures { result.now ≡ reads_in self.now e }
    {
        self.edges.as_slice()[e.process as usize].as_slice()[e.edge as usize]
            .reads
            .as_slice()
    }

    /// The cells that an edge writes.
    pub fn writes(&self, e: EdgeId) -> &[u16]
        requires { IsEdge self.now e }
        ensures { result.now ≡ writes_in self.now e }
    {
        self.edges.as_slice()[e.process as usize].as_slice()[e.edge as usize]
            .writes
            .as_slice()
    }

    /// What led to a synchronization by its number.
    pub fn paired(&self, n: NodeId) -> Paired
        ensures { result ≡ pair_at self.now.pairs n }
    {
        partner_at(self.pairs.as_slice(), n.process as usize, n.sync as usize)
    }
}
