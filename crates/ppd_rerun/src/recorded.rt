use ppd_ast::{Plan, Program};
use ppd_index::LogIndex;
use ppd_model::Logs;

/// What is recorded of a run: its program with its plan, its logs with their index, and the budget of each process.
#[derive(Clone, Copy)]
pub struct Recorded<'a> {
    pub program: &'a Program,
    pub plan: &'a Plan,
    pub logs: &'a Logs,
    pub index: &'a LogIndex,
    pub budget: u32,
}
