use crate::Logs;
use ppd_ast::{Nums, Seq, Status};

/// How a process ended: `stmt` is the statement that ended it, that trapped or that would come
/// next, `steps` counts its steps but a stop for the budget, and `prints` has what it printed.
#[derive(Drop)]
pub struct ProcEnd {
    pub status: Status,
    pub stmt: u32,
    pub steps: u32,
    pub prints: Nums,
}

/// What is left of a run in which nobody can take a step: the logs, and how each process ended.
#[derive(Drop)]
pub struct Closed {
    pub logs: Logs,
    pub ends: Seq<ProcEnd>,
}
