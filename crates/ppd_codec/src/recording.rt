use ppd_ast::{Bytes, Plan, Policy, Program};
use ppd_model::Logs;

/// With what a source was run: the policy of its plan, and the budget of each process, 1 to 500,000.
#[derive(Clone, Copy)]
pub struct Header {
    pub policy: Policy,
    pub budget: u32,
}

/// What a recording holds, with the program of its source and the plan of its policy.
#[derive(Drop)]
pub struct Recording {
    pub source: Bytes,
    pub program: Program,
    pub plan: Plan,
    pub header: Header,
    pub logs: Logs,
}
