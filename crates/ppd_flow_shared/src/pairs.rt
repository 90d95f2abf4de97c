ghost use Rattle.std.specs.Prelude.{◌≡◌, IfOk, Some};
ghost use Rattle.ppd_flow_tables.specs.SeenBy.{items_in};
ghost use Rattle.ppd_graph.specs.Shared.{pair_of as pair_of_place, pair_origin as pair_origin_of};
ghost use Rattle.ppd_flow_shared.specs.SharedCells.{IsNodeFound, IsSought, seens_in};
ghost use Rattle.ppd_flow_tables.specs.Tabled.{IsTabled};

use crate::edge_end::edge_end;
use ppd_ast::{Memory, Steps};
use ppd_flow_tables::{FlowError, Past, Tables, edge_at, number};
use ppd_graph::Paired;
use ppd_model::{EdgeId, Item, NodeId, Origin};
use std::alloc::Global;
use std::sync::ledger::Ledger;

/// A place in an interval of a process: before the item of this number.
#[derive(Clone, Copy)]
pub struct ItemPlace {
    pub process: u8,
    pub interval: u32,
    pub item: usize,
}

/// What leads to the synchronization at a place of an interval, whose items these are. `Memory` is want of memory, also
/// for places that have no 32-bit numbers.
pub fn pair_of(
    past: &Past,
    tables: &Tables,
    place: ItemPlace,
    items: &[Item],
) -> Result<Paired, Memory>
    requires past { IsTabled past.now tables.now }
    requires items { items.now ≡ items_in past.now place.process place.interval }
    ensures { IfOk result (λ pair. pair
        ≡ pair_of_place past.now.program.now past.now.logs.now (seens_in past.now) place.process place.interval
        place.item) }
{
    let ItemPlace {
        process,
        interval,
        item,
    } = place;
    let sync = edge_at(past, tables, process, interval, items, item)?;
    Ok(past.graph.paired(NodeId { process, sync }))
}

// Where a synchronization is an item.
fn node_place<L: Ledger>(
    alloc: Global,
    past: &Past,
    tables: &Tables,
    node: NodeId,
    steps: &mut Steps<L>,
) -> Result<Origin, FlowError>
    requires { IsTabled past.now tables.now }
    ensures { IsNodeFound past.now node steps.old steps.new result }
{
    let edge = EdgeId {
        process: node.process,
        edge: node.sync,
    };
    let end = edge_end(alloc, past, tables, edge, steps)?;
    let item = number(end.place)?;
    Ok(Origin::Item {
        process: node.process,
        interval: end.interval,
        item,
    })
}

/// Where the pair of the synchronization at a place of an interval is an item, whose items these are: the item
/// that is the synchronization which leads to it, `Initial` for a `P` that the initial value let through, and
/// none where nothing leads to it.
///
/// The counter rises by the own steps of the interval in which the pair is. `Diverged`: its replay fails at
/// this entry. `Memory` is want of memory, also for places that have no 32-bit numbers. No other error comes.
pub fn pair_origin<L: Ledger>(
    alloc: Global,
    past: &Past,
    tables: &Tables,
    place: ItemPlace,
    items: &[Item],
    steps: &mut Steps<L>,
) -> Result<Option<Origin>, FlowError>
    requires past { IsTabled past.now tables.now }
    requires items { items.now ≡ items_in past.now place.process place.interval }
    ensures { IsSought past.now
        (pair_origin_of past.now.program.now past.now.logs.now (seens_in past.now) place.process place.interval
        place.item)
        steps.old steps.new result }
{
    match pair_of(past, tables, place, items)? {
        Paired::Nothing => Ok(None),
        Paired::Initial => Ok(Some(Origin::Initial)),
        Paired::Node(node) => Ok(Some(node_place(alloc, past, tables, node, steps)?)),
    }
}
