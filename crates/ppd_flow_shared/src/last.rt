ghost use Rattle.std.specs.Prelude.{◌≡◌, ◌+◌, IfOk, IfSome, option_copied};
ghost use Rattle.ppd_flow_tables.specs.ByReplays.{steps_to_replay};
ghost use Rattle.ppd_flow_tables.specs.Pasts.{IsPast};
ghost use Rattle.ppd_flow_shared.specs.SharedCells.{AreItemsOfLast, IsLastFound, last_edge as last_edge_of};
ghost use Rattle.ppd_flow_tables.specs.Tabled.{IsOfInterval};

use crate::search::CellSearch;
use crate::written::written_before;
use ppd_ast::{Memory, Steps};
use ppd_flow_tables::{
    FlowError, Past, TabledItems, greatest_writing, sought_end_interval, sync_item,
};
use ppd_model::{EdgeId, Origin};
use std::alloc::Global;
use std::sync::ledger::Ledger;

/// The internal edge with the last write of a shared cell, and the interval in which it ends.
#[derive(Clone, Copy)]
pub struct LastEdge {
    pub edge: EdgeId,
    pub interval: u32,
}

/// The greatest internal edge whose write set has the cell, with the interval in which it ends, if there is one.
/// Nothing is replayed. `Memory` is want of memory, also for edges that have no numbers.
pub fn last_edge(past: &Past, cell: u16) -> Result<Option<LastEdge>, Memory>
    requires { IsPast past.now }
    ensures { IfOk result (λ last. last ≡ last_edge_of past.now cell) }
{
    match greatest_writing(past, cell)? {
        Some(edge) => Ok(Some(LastEdge {
            edge,
            interval: sought_end_interval(past, edge.process, edge.edge),
        })),
        None => Ok(None),
    }
}

/// What `last_write` answers for a cell that this edge wrote last, from the items of the interval in which the edge
/// ends: that interval is not replayed again, and the counter does not rise by its steps. Where the tables of that
/// interval are at hand, its items are not gone over.
pub fn last_write_from<L: Ledger>(
    alloc: Global,
    past: &Past,
    cell: u16,
    last: LastEdge,
    given: TabledItems,
    steps: &mut Steps<L>,
) -> Result<(i64, Origin), FlowError>
    requires items { AreItemsOfLast past.now cell last given.items.now }
    requires tables { IfSome (option_copied given.tables)
        (IsOfInterval past.now last.edge.process last.interval) }
    ensures { IsLastFound past.now cell steps.old
        (steps.new + steps_to_replay past.now last.edge.process last.interval) result }
{
    let LastEdge { edge, interval } = last;
    let items = given.items;
    let tables = given.tables_at(edge.process, interval);
    let place = sync_item(past, &tables, edge, interval, items)?;
    let search = CellSearch {
        alloc,
        past,
        tables,
        process: edge.process,
        cell,
    };
    written_before(&search, edge.edge, interval, items, place, steps)
}
