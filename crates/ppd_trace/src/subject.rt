use crate::pairs::PairedStory;
use ppd_ast::{Plan, Program};
use std::alloc::Global;

/// A process that is traced: its program and plan, the story of the schedule with its pairs, its number,
/// and where its trace takes memory.
#[derive(Clone, Copy)]
pub(crate) struct Subject<'a> {
    pub(crate) alloc: Global,
    pub(crate) program: &'a Program,
    pub(crate) plan: &'a Plan,
    pub(crate) told: &'a PairedStory,
    pub(crate) process: u8,
}
