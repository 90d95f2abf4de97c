ghost use Rattle.std.specs.Prelude.{◌≡◌, ◌+◌, ◌≤◌, ◌<◌, ◌^◌, List, ℕ};
ghost use Rattle.ppd_model.specs.declared.entry.Entry.{Entry};
ghost use Rattle.ppd_graph.specs.Ends.{sync_item as sync_item_in, first_edge as first_edge_of};
ghost use Rattle.ppd_graph.specs.Seen.{place_of as place_among};
ghost use Rattle.ppd_flow_tables.specs.Stops.{ArePassed, IsLater, after};
ghost use Rattle.ppd_flow_tables.specs.Tables.{IsPlaceTable, edge_of};
ghost use Rattle.ppd_model.specs.declared.flow.Item.{Item};

use crate::listing::Listing;
use crate::numbers::number_at;
use ppd_ast::Ids;

/// The items that the walk back to a write of a shared cell does not simply pass.
#[derive(Drop)]
pub(crate) struct Stops {
    pub(crate) writes: Listing,
    pub(crate) borders: Listing,
}

/// The places of an interval: the edge of each, and where synchronizations, inner intervals and writes of shared cells
/// are. It keeps 4 bytes an item, 8 more for each cell that it writes, and 16 more for an inner interval or a
/// synchronization.
#[derive(Drop)]
pub struct PlaceTable {
    pub(crate) count: u32,
    pub(crate) edges: Ids,
    pub(crate) syncs: Listing,
    pub(crate) inner: Listing,
    pub(crate) stops: Stops,
}

/// A place in 32 bits: the greatest number there for one that has more.
fn small(place: usize) -> u32
    ensures most { result ≤ place }
    ensures is { (i : ℕ) → i < place → i + 1 < 2 ^ 32 → i < result }
{
    if place < u32::MAX as usize {
        place as u32
    } else {
        u32::MAX
    }
}

/// The later of two places.
fn later(a: Option<usize>, b: Option<usize>) -> Option<usize>
    ensures { IsLater a b result }
{
    match (a, b) {
        (Some(i), Some(j)) => { if i < j { b } else { a } }
        (Some(_), None) => a,
        (None, _) => b,
    }
}

impl PlaceTable {
    /// The internal edge in which a place lies, and that of the place after all items for those behind.
    pub fn edge_at(&self, place: usize) -> u32
        ensures { (entries : List Entry) (k : ℕ) (items : List Item) → IsPlaceTable entries k items self.now
            → result ≡ edge_of entries k items place }
    {
        let count = self.count as usize;
        if place < count {
            number_at(self.edges.as_slice(), place)
        } else {
            number_at(self.edges.as_slice(), count)
        }
    }

    /// The place of the synchronization that ends an internal edge, and the place after all items where none is.
    pub fn sync_item(&self, edge: u32) -> usize
        ensures { (entries : List Entry) (k : ℕ) (items : List Item) → IsPlaceTable entries k items self.now
            → result ≡ sync_item_in entries edge (first_edge_of entries k) items }
    {
        match self.syncs.first_under(edge) {
            Some(place) => place,
            None => self.count as usize,
        }
    }

    /// The place of an inner interval, and 0 where it is none of the items.
    pub fn place_of(&self, interval: u32) -> usize
        ensures { (entries : List Entry) (k : ℕ) (items : List Item) → IsPlaceTable entries k items self.now
            → result ≡ place_among interval items }
    {
        match self.inner.first_under(interval) {
            Some(place) => place,
            None => 0,
        }
    }

    /// The last item before a place that the walk back to a write of a shared cell does not simply pass: an inner
    /// interval, an event with a number, or one that writes the cell; none where it passes all of them.
    pub fn stop_before(&self, cell: u16, place: usize) -> Option<usize>
        ensures { (entries : List Entry) (k : ℕ) (items : List Item) → IsPlaceTable entries k items self.now
            → ArePassed cell items (after result) place }
    {
        let most = small(place);
        let border = self.stops.borders.last_under(0, most);
        let write = self.stops.writes.last_under(cell as u32, most);
        later(border, write)
    }
}
