// Tables that are kept with replays while questions about them go on.
ghost use Rattle.std.specs.Prelude.{◌≡◌, [], IfOk, get_or};
ghost use Rattle.ppd_flow_past.specs.declared.past.Past.{Past};
ghost use Rattle.ppd_flow_past.specs.Keeping.{AreKeptOf};
ghost use Rattle.ppd_flow_past.specs.Pasts.{IsPast};
ghost use Rattle.ppd_flow_tables.specs.Tabled.{AreKeptTables, AreOfProcesses, AreTablesOf};

use crate::by_cell::{WritingEdges, writing_edges};
use crate::process::ProcessTables;
use crate::tables::Tables;
use ppd_ast::{Memory, Seq};
use ppd_flow_past::Past;
use ppd_model::Item;
use std::alloc::Global;

/// The tables of processes whose replays are kept, and the edges of all processes that write each cell.
#[derive(Drop)]
pub struct KeptTables {
    pub(crate) processes: Seq<Option<ProcessTables>>,
    pub(crate) writing: WritingEdges,
}

fn rows_of(kept: &[Seq<Seq<Item>>], process: u8) -> &[Seq<Item>]
    ensures { result.now ≡ get_or kept.now process [] }
{
    match kept.get(process as usize) {
        Some(rows) => rows.as_slice(),
        None => &[],
    }
}

/// None yet of each process of a past. `Memory` is want of memory.
fn none_of(alloc: Global, past: &Past) -> Result<Seq<Option<ProcessTables>>, Memory>
    ensures { IfOk result (AreOfProcesses past.now) }
{
    let mut processes = Seq::new(alloc);
    for _process in 0..past.cut.lists.len() {
        processes.push(None)?;
    }
    Ok(processes)
}

impl KeptTables {
    /// None yet, of the processes of a past. `Memory` is want of memory, also for processes that have no 8-bit numbers.
    pub fn new(alloc: Global, past: &Past) -> Result<KeptTables, Memory>
        requires { IsPast past.now }
        ensures { IfOk result (AreKeptTables past.now) }
    {
        let writing = writing_edges(alloc, past)?;
        let processes = none_of(alloc, past)?;
        Ok(KeptTables { processes, writing })
    }

    /// The tables that are at hand now.
    pub fn tables(&self) -> Tables<'_>
        ensures { (past : Past) → AreKeptTables past self.now → AreTablesOf past result }
    {
        Tables::Kept {
            processes: self.processes.as_slice(),
            writing: &self.writing,
        }
    }

    /// Whether those of a process are there.
    fn has(&self, process: u8) -> bool {
        matches!(self.processes.get(process as usize), Some(Some(_)))
    }

    /// Makes the tables of a process, if they are not there yet, from the replays that are kept of it. `Memory` is want
    /// of memory, also for items, entries and edges that have no 32-bit numbers.
    pub fn make(
        &mut self,
        alloc: Global,
        past: &Past,
        kept: &[Seq<Seq<Item>>],
        process: u8,
    ) -> Result<(), Memory>
        requires past { IsPast past.now }
        requires kept { AreKeptOf past.now kept.now }
        requires tables { AreKeptTables past.now self.old }
        ensures { AreKeptTables past.now self.new }
    {
        if self.has(process) {
            return Ok(());
        }
        let tables = ProcessTables::new(alloc, past, process, rows_of(kept, process))?;
        self.processes.set(process as usize, Some(tables));
        Ok(())
    }
}
