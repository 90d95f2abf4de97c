// What the parser has made of the tokens so far.
ghost use Rattle.ppd_parse.specs.Grown.{IsGrown};

use crate::node::Growth;
use crate::symbol::At;
use std::alloc::Global;

// The nodes so far, and those of them that have no parent yet, in source order.
#[derive(Drop)]
pub struct Grove {
    pub alloc: Global,
    pub nodes: Vec<Growth>,
    pub roots: Vec<usize>,
    ghost grown: { IsGrown nodes.items roots.items },
}

// What came of a want: it stands for others or is done, it read the token there, or no program goes on so.
#[derive(Clone, Copy, Drop)]
pub enum Step {
    Moved,
    Read(At),
    Refused,
}
