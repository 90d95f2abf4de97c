ghost use Rattle.std.specs.Prelude.{◌<◌, ◌^◌, IfOk, length, get_or, []};
ghost use Rattle.ppd_flow_past.specs.Pasts.{IsPast};
ghost use Rattle.ppd_flow_tables.specs.Counts.{AreCounts};
ghost use Rattle.ppd_flow_tables.specs.Tables.{IsEdgeTable};

use crate::counts::{counts_of, ends_of};
use crate::edge_table::EdgeTable;
use crate::innermost::innermost_of;
use crate::spans::spans_of;
use ppd_ast::Memory;
use ppd_flow_past::{Past, entries_of, number};
use std::alloc::Global;

/// The table of a process, by the counts of synchronizations before its entries.
fn table_of(alloc: Global, past: &Past, process: u8, counts: &[u32]) -> Result<EdgeTable, Memory>
    requires past { IsPast past.now }
    requires few { length (get_or past.now.logs.now.lists process []) < 2 ^ 32 }
    requires counts { AreCounts (get_or past.now.logs.now.lists process []) counts.now }
    ensures { IfOk result (IsEdgeTable (get_or past.now.logs.now.lists process [])) }
{
    let entries = entries_of(past.logs, process);
    let count = entries.len() as u32;
    let ends = ends_of(alloc, entries, counts)?;
    let spans = spans_of(alloc, past, process, counts)?;
    let innermost = innermost_of(alloc, past, process, count)?;
    Ok(EdgeTable {
        spans,
        count,
        ends,
        innermost,
    })
}

impl EdgeTable {
    /// The table of a process, in steps that are linear in its entries, each counted once for each interval that it
    /// stands in, but for the sort of those that end edges. `Memory` is want of memory, also for a process whose
    /// entries have no 32-bit numbers.
    pub fn new(alloc: Global, past: &Past, process: u8) -> Result<EdgeTable, Memory>
        requires { IsPast past.now }
        ensures { IfOk result (IsEdgeTable (get_or past.now.logs.now.lists process [])) }
    {
        let entries = entries_of(past.logs, process);
        number(entries.len())?;
        let counts = counts_of(alloc, entries)?;
        table_of(alloc, past, process, counts.as_slice())
    }
}
