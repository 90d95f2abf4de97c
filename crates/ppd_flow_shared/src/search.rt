use ppd_flow_tables::{Past, Tables};
use std::alloc::Global;

/// A search for writes of a shared cell by a process, by the tables that are at hand of the past.
#[derive(Clone, Copy)]
pub struct CellSearch<'a> {
    pub alloc: Global,
    pub past: &'a Past<'a>,
    pub tables: Tables<'a>,
    pub process: u8,
    pub cell: u16,
}
