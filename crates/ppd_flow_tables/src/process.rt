ghost use Rattle.std.specs.Prelude.{◌≡◌, IfOk, get_or, []};
ghost use Rattle.ppd_flow_past.specs.Keeping.{AreFirstItems};
ghost use Rattle.ppd_flow_past.specs.Pasts.{IsPast};
ghost use Rattle.ppd_flow_tables.specs.Tables.{IsEdgeTable};
ghost use Rattle.ppd_flow_tables.specs.Tabled.{AreOfProcess, AreOfFirst};

use crate::block::BlockTables;
use crate::edge_table::EdgeTable;
use ppd_ast::{Memory, Seq};
use ppd_flow_past::{Past, number};
use ppd_model::Item;
use std::alloc::Global;

/// The tables of a process: of its internal edges, and of the items of its first intervals.
#[derive(Drop)]
pub struct ProcessTables {
    pub edges: EdgeTable,
    pub blocks: Seq<BlockTables>,
}

/// The tables of the first intervals of a process, whose items these are.
fn block_tables(
    alloc: Global,
    past: &Past,
    edges: &EdgeTable,
    process: u8,
    rows: &[Seq<Item>],
) -> Result<Seq<BlockTables>, Memory>
    requires past { IsPast past.now }
    requires edges { IsEdgeTable (get_or past.now.logs.now.lists process []) edges.now }
    requires rows { AreFirstItems past.now process rows.now }
    ensures { IfOk result (AreOfFirst past.now process) }
{
    let mut blocks = Seq::new(alloc);
    for (i, items) in rows.iter().enumerate() {
        let interval = number(i)?;
        let tables = BlockTables::new(alloc, past, edges, process, interval, items.as_slice())?;
        blocks.push(tables)?;
    }
    Ok(blocks)
}

impl ProcessTables {
    /// Those of a process of which these are the items of the first intervals. `Memory` is want of memory, also for
    /// items, entries and edges that have no 32-bit numbers.
    pub(crate) fn new(
        alloc: Global,
        past: &Past,
        process: u8,
        rows: &[Seq<Item>],
    ) -> Result<ProcessTables, Memory>
        requires past { IsPast past.now }
        requires rows { AreFirstItems past.now process rows.now }
        ensures { IfOk result (AreOfProcess past.now process) }
    {
        let edges = EdgeTable::new(alloc, past, process)?;
        let blocks = block_tables(alloc, past, &edges, process, rows)?;
        Ok(ProcessTables { edges, blocks })
    }
}
