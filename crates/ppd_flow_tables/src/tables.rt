ghost use Rattle.std.specs.Prelude.{◌≡◌, IfSome, None, get_or, option_copied, slice_get};
ghost use Rattle.ppd_flow_past.specs.declared.past.Past.{Past};
ghost use Rattle.ppd_flow_tables.specs.Tabled.{AreTablesOf, IsOfInterval, block_in, blocks_of, edges_in, edges_of, writing_in};

use crate::block::BlockTables;
use crate::by_cell::WritingEdges;
use crate::edge_table::EdgeTable;
use crate::process::ProcessTables;
use ppd_model::Item;

/// The tables that are at hand in a search: none, those of one interval, or those of processes that are kept.
#[derive(Clone, Copy)]
pub enum Tables<'a> {
    /// None.
    Nothing,
    /// Those of this interval of this process.
    Block {
        process: u8,
        interval: u32,
        tables: &'a BlockTables,
    },
    /// Those of each process that is kept, by its number, and the edges of all that write each cell.
    Kept {
        processes: &'a [Option<ProcessTables>],
        writing: &'a WritingEdges,
    },
}

/// The items of an interval, with their tables where they were made.
#[derive(Clone, Copy)]
pub struct TabledItems<'a> {
    pub items: &'a [Item],
    pub tables: Option<&'a BlockTables>,
}

impl<'a> TabledItems<'a> {
    /// The tables that are at hand with the items of this interval.
    pub fn tables_at(&self, process: u8, interval: u32) -> Tables<'a>
        ensures { (past : Past) → IfSome (option_copied self.now.tables) (IsOfInterval past process interval)
            → AreTablesOf past result }
    {
        match self.tables {
            Some(tables) => Tables::Block {
                process,
                interval,
                tables,
            },
            None => Tables::Nothing,
        }
    }
}

fn process_in(processes: &[Option<ProcessTables>], process: u8) -> Option<&ProcessTables>
    ensures { option_copied result ≡ get_or processes.now process None }
{
    match processes.get(process as usize) {
        Some(Some(tables)) => Some(tables),
        Some(None) | None => None,
    }
}

fn block_at(processes: &[Option<ProcessTables>], process: u8, interval: u32) -> Option<&BlockTables>
    ensures { option_copied result ≡ slice_get (blocks_of (get_or processes.now process None)) interval }
{
    match process_in(processes, process) {
        Some(tables) => tables.blocks.get(interval as usize),
        None => None,
    }
}

fn edges_at(processes: &[Option<ProcessTables>], process: u8) -> Option<&EdgeTable>
    ensures { option_copied result ≡ edges_of (get_or processes.now process None) }
{
    match process_in(processes, process) {
        Some(tables) => Some(&tables.edges),
        None => None,
    }
}

impl<'a> Tables<'a> {
    /// The tables of an interval of a process, if they are at hand.
    pub fn block(&self, process: u8, interval: u32) -> Option<&'a BlockTables>
        ensures { option_copied result ≡ block_in self.now process interval }
    {
        match self {
            Tables::Nothing => None,
            Tables::Block {
                process: of,
                interval: at,
                tables,
            } => {
                if process == *of && interval == *at {
                    Some(*tables)
                } else {
                    None
                }
            }
            Tables::Kept { processes, .. } => block_at(processes, process, interval),
        }
    }

    /// The table of a process's internal edges, if it is at hand.
    pub fn edges(&self, process: u8) -> Option<&'a EdgeTable>
        ensures { option_copied result ≡ edges_in self.now process }
    {
        match self {
            Tables::Nothing | Tables::Block { .. } => None,
            Tables::Kept { processes, .. } => edges_at(processes, process),
        }
    }

    /// The edges that write each cell, if they are at hand.
    pub fn writing(&self) -> Option<&'a WritingEdges>
        ensures { option_copied result ≡ writing_in self.now }
    {
        match self {
            Tables::Nothing | Tables::Block { .. } => None,
            Tables::Kept { writing, .. } => Some(*writing),
        }
    }
}
