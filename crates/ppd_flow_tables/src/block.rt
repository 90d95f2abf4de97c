ghost use Rattle.std.specs.Prelude.{◌≡◌, IfOk, get_or, []};
ghost use Rattle.ppd_flow_past.specs.Pasts.{IsPast};
ghost use Rattle.ppd_flow_past.specs.SeenBy.{items_in};
ghost use Rattle.ppd_flow_tables.specs.Tables.{IsEdgeTable};
ghost use Rattle.ppd_flow_tables.specs.Tabled.{IsOfInterval};

use crate::edge_table::EdgeTable;
use crate::place_table::PlaceTable;
use ppd_ast::Memory;
use ppd_flow_local_tables::LocalTable;
use ppd_flow_past::Past;
use ppd_model::Item;
use std::alloc::Global;

/// The tables of the items of one interval: of the local cells and tests in it, and of its places.
#[derive(Drop)]
pub struct BlockTables {
    pub locals: LocalTable,
    pub places: PlaceTable,
}

impl BlockTables {
    /// Those of an interval of a process, whose items these are, with the table of the process's edges. `Memory` is
    /// want of memory, also for items and edges that have no 32-bit numbers.
    pub fn new(
        alloc: Global,
        past: &Past,
        edges: &EdgeTable,
        process: u8,
        interval: u32,
        items: &[Item],
    ) -> Result<BlockTables, Memory>
        requires past { IsPast past.now }
        requires edges { IsEdgeTable (get_or past.now.logs.now.lists process []) edges.now }
        requires items { items.now ≡ items_in past.now process interval }
        ensures { IfOk result (IsOfInterval past.now process interval) }
    {
        let locals = LocalTable::new(alloc, past.program, past.plan, items)?;
        let places = PlaceTable::new(alloc, edges, interval, items)?;
        Ok(BlockTables { locals, places })
    }
}
