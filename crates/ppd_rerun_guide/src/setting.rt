use ppd_ast::{Plan, Program};
use std::alloc::Global;

/// What a run is of, and where its memory comes from.
#[derive(Clone, Copy)]
pub struct Setting<'a> {
    pub alloc: Global,
    pub program: &'a Program,
    pub plan: &'a Plan,
}
