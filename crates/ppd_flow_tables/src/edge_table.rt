ghost use Rattle.std.specs.Prelude.{◌≡◌, List, slice_get};
ghost use Rattle.ppd_model.specs.declared.entry.Entry.{Entry};
ghost use Rattle.ppd_graph.specs.Ends.{end_interval as end_interval_of, ending as ending_in, first_edge as first_edge_of, syncs_inside as syncs_inside_of, syncs_of_item as syncs_of};
ghost use Rattle.ppd_flow_tables.specs.Tables.{IsEdgeTable};
ghost use Rattle.ppd_model.specs.Extents.{extents};

use crate::listing::Listing;
use crate::numbers::number_at;
use crate::spans::Spans;
use ppd_ast::Ids;
use ppd_model::Item;

/// The internal edges of a process: in which edge each interval begins and how many synchronizations it has, which
/// entry ends each edge, and the innermost interval at each entry. It keeps 4 bytes an entry, 8 more for each that
/// ends an edge, 8 bytes an interval, and no entry.
#[derive(Drop)]
pub struct EdgeTable {
    pub(crate) spans: Spans,
    pub(crate) count: u32,
    pub(crate) ends: Listing,
    pub(crate) innermost: Ids,
}

impl EdgeTable {
    /// The edge in which an interval begins, and 0 where there is no such interval.
    pub fn first_edge(&self, interval: u32) -> u32
        ensures { (entries : List Entry) → IsEdgeTable entries self.now → result ≡ first_edge_of entries interval }
    {
        number_at(self.spans.first.as_slice(), interval as usize)
    }

    /// How many synchronizations an interval has, with those of the intervals inside it.
    pub fn syncs_inside(&self, interval: u32) -> u32
        ensures { (entries : List Entry) → IsEdgeTable entries self.now
            → result ≡ syncs_inside_of entries (slice_get (extents entries) interval) }
    {
        number_at(self.spans.inside.as_slice(), interval as usize)
    }

    /// How many synchronizations an item has.
    pub fn syncs_of_item(&self, item: &Item) -> u32
        ensures { (entries : List Entry) → IsEdgeTable entries self.now → result ≡ syncs_of entries item.now }
    {
        match item {
            Item::Own(event) => { if event.number.is_some() { 1 } else { 0 } }
            Item::Nested { interval, .. } => self.syncs_inside(*interval),
        }
    }

    /// The number of the entry that ends an internal edge: the synchronization, or the end for a last edge; and the
    /// count of the entries where none ends it.
    pub fn ending(&self, edge: u32) -> usize
        ensures { (entries : List Entry) → IsEdgeTable entries self.now → result ≡ ending_in edge entries }
    {
        match self.ends.first_under(edge) {
            Some(entry) => entry,
            None => self.count as usize,
        }
    }

    /// The interval in which an internal edge ends: the innermost at the synchronization that ends it; of a last edge
    /// the innermost that was not left, or interval 0.
    pub fn end_interval(&self, edge: u32) -> u32
        ensures { (entries : List Entry) → IsEdgeTable entries self.now → result ≡ end_interval_of entries edge }
    {
        number_at(self.innermost.as_slice(), self.ending(edge))
    }
}
