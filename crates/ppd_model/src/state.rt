use crate::Entry;
use ppd_ast::{Cells, Nums, Seq};
use ppd_sem::Proc;

/// How often a semaphore was given, its initial value included, and how often it was taken.
#[derive(Clone, Copy)]
pub struct Counts {
    pub given: u32,
    pub taken: u32,
}

/// The values sent to a channel so far, how many of them were received, and how many sends were
/// completed, which is 0 where the capacity is not 0.
#[derive(Drop)]
pub struct Channel {
    pub capacity: u8,
    pub sent: Nums,
    pub received: u32,
    pub completed: u32,
}

/// A process with its entries so far, the shared cells that it accessed since its last
/// synchronization, and its steps since the last one that wrote an entry.
#[derive(Drop)]
pub struct Logging {
    pub proc: Proc,
    pub reads: Cells,
    pub writes: Cells,
    pub rest: u32,
    pub entries: Seq<Entry>,
}
