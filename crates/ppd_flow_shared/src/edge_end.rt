ghost use Rattle.std.specs.Prelude.{[], ◌∷◌, Ok, get_or};
ghost use Rattle.ppd_flow_tables.specs.ByReplays.{IsFoundBy};
ghost use Rattle.ppd_graph.specs.Ends.{end_interval as end_interval_of};
ghost use Rattle.ppd_flow_shared.specs.SharedCells.{edge_end_of};
ghost use Rattle.ppd_flow_tables.specs.Tabled.{IsTabled};

use ppd_ast::Steps;
use ppd_flow_tables::{FlowError, Items, Past, Tables, end_interval, interval_items, sync_item};
use ppd_model::EdgeId;
use std::alloc::Global;
use std::sync::ledger::Ledger;

/// Where an internal edge ends: an interval with its items, and the place among them, that of the synchronization
/// that ends the edge; of a last edge the place after all items.
#[derive(Drop)]
pub(crate) struct EdgeEnd<'a> {
    pub interval: u32,
    pub items: Items<'a>,
    pub place: usize,
}

/// Finds where an edge ends, by the items of that interval.
pub(crate) fn edge_end<'a, L: Ledger>(
    alloc: Global,
    past: &Past<'a>,
    tables: &Tables,
    edge: EdgeId,
    steps: &mut Steps<L>,
) -> Result<EdgeEnd<'a>, FlowError>
    requires { IsTabled past.now tables.now }
    ensures { IsFoundBy past.now
        ((edge.process, end_interval_of (get_or past.now.logs.now.lists edge.process []) edge.edge) ∷ [])
        (Ok (edge_end_of past.now edge)) steps.old steps.new result }
{
    let interval = end_interval(past, tables, edge);
    let items = interval_items(alloc, past, edge.process, interval, steps)?;
    let place = sync_item(past, tables, edge, interval, items.as_slice())?;
    Ok(EdgeEnd {
        interval,
        items,
        place,
    })
}
