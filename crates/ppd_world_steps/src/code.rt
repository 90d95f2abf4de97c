use ppd_ast::{Plan, Program};
use std::alloc::Global;

/// A program with its plan, and where the memory of its run comes from.
#[derive(Clone, Copy)]
pub struct Code<'a> {
    pub alloc: Global,
    pub program: &'a Program,
    pub plan: &'a Plan,
}
