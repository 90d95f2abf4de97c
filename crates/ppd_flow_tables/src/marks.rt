// The items of an interval by the numbers under which they are looked up.
ghost use Rattle.std.specs.Prelude.{◌≡◌, ◌&&◌, ◌||◌, ◌<◌, ◌^◌, ℕ, IfOk, OnOk, is_some, length, nat_eq};
ghost use Rattle.ppd_ast.specs.Members.{has};
ghost use Rattle.ppd_graph.specs.Seen.{is_item_of};
ghost use Rattle.ppd_graph.specs.Walk.{is_shared, value_to};
ghost use Rattle.ppd_flow_tables.specs.Listed.{key};
ghost use Rattle.ppd_flow_tables.specs.Stops.{is_border as is_border_there, writes_cell};
ghost use Rattle.ppd_flow_tables.specs.Tables.{AreWhere, is_marked, is_under};

use crate::listing::{Listing, push_if, push_place};
use ppd_ast::{Memory, Seq};
use ppd_flow_past::is_sync_item;
use ppd_model::Item;
use ppd_sem::{Access, Spot};
use std::alloc::Global;

/// Under which numbers items are listed.
#[derive(Clone, Copy)]
pub(crate) enum Mark {
    /// A synchronization under the edge that it ends.
    Sync,
    /// An inner interval under its number.
    Inner,
    /// An event under each shared cell that it writes.
    Write,
    /// An inner interval or an event with a number, under 0.
    Border,
}

fn is_border(item: &Item) -> bool
    ensures { result ≡ is_border_there item.now }
{
    match item {
        Item::Own(event) => event.number.is_some(),
        Item::Nested { .. } => true,
    }
}

fn push_inner(keys: &mut Seq<u64>, place: u32, item: &Item) -> Result<(), Memory>
    ensures { OnOk result ((n i : ℕ) → i < 2 ^ 32 → has keys.new (key n i)
        ≡ (has keys.old (key n i) || (nat_eq place i && is_item_of n item.now))) }
{
    match item {
        Item::Own(_) => Ok(()),
        Item::Nested { interval, .. } => push_place(keys, *interval, place),
    }
}

fn push_cell(keys: &mut Seq<u64>, place: u32, spot: Spot) -> Result<(), Memory>
    ensures { OnOk result ((n i : ℕ) → i < 2 ^ 32 → has keys.new (key n i)
        ≡ (has keys.old (key n i) || (nat_eq place i && is_shared n spot))) }
{
    match spot {
        Spot::Shared(cell) => push_place(keys, cell as u32, place),
        Spot::Local { .. } => Ok(()),
    }
}

fn push_cells(keys: &mut Seq<u64>, place: u32, writes: &[Access]) -> Result<(), Memory>
    ensures { OnOk result ((n i : ℕ) → i < 2 ^ 32 → has keys.new (key n i)
        ≡ (has keys.old (key n i) || (nat_eq place i && is_some (value_to n writes.now)))) }
{
    for access in writes {
        push_cell(keys, place, access.spot)?;
    }
    Ok(())
}

fn push_writes(keys: &mut Seq<u64>, place: u32, item: &Item) -> Result<(), Memory>
    ensures { OnOk result ((n i : ℕ) → i < 2 ^ 32 → has keys.new (key n i)
        ≡ (has keys.old (key n i) || (nat_eq place i && writes_cell n item.now))) }
{
    match item {
        Item::Own(event) => push_cells(keys, place, event.writes.as_slice()),
        Item::Nested { .. } => Ok(()),
    }
}

/// Adds the place of an item of this edge under its numbers.
fn push_item(
    keys: &mut Seq<u64>,
    mark: Mark,
    edge: u32,
    place: u32,
    item: &Item,
) -> Result<(), Memory>
    ensures { OnOk result ((n i : ℕ) → i < 2 ^ 32 → has keys.new (key n i)
        ≡ (has keys.old (key n i) || (nat_eq place i && is_under mark edge n item.now))) }
{
    match mark {
        Mark::Sync => push_if(keys, is_sync_item(item), edge, place),
        Mark::Inner => push_inner(keys, place, item),
        Mark::Write => push_writes(keys, place, item),
        Mark::Border => push_if(keys, is_border(item), 0, place),
    }
}

/// The items, which are of these edges, under their numbers.
pub(crate) fn list_items(
    alloc: Global,
    mark: Mark,
    edges: &[u32],
    items: &[Item],
) -> Result<Listing, Memory>
    requires few { length items.now < 2 ^ 32 }
    requires edges { length items.now < length edges.now }
    ensures { IfOk result (λ listing. AreWhere (is_marked mark edges.now items.now) listing.keys) }
{
    let mut keys = Seq::new(alloc);
    for (place, item) in items.iter().enumerate() {
        push_item(&mut keys, mark, edges[place], place as u32, item)?;
    }
    Ok(Listing::new(keys))
}
