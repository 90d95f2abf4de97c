use crate::trace::{EventId, TracedEvent};
use ppd_ast::{Nums, Seq};
use ppd_sem::{Answer, Need, Proc, Stack};

/// A step that a process took: what it needed and was given, the event that last wrote the cell of
/// a `Read`, and the number of a synchronization.
#[derive(Clone, Copy)]
pub struct Taken {
    pub need: Need,
    pub answer: Answer,
    pub writer: Option<EventId>,
    pub number: Option<u32>,
}

/// The steps of each process in order, and each shared cell's last value and writer.
#[derive(Drop)]
pub struct Story {
    pub steps: Seq<Seq<Taken>>,
    pub cells: Nums,
    pub writers: Seq<Option<EventId>>,
}

/// An event of an `If` or a `While`, and whether its value was true.
#[derive(Clone, Copy)]
pub struct Test {
    pub stmt: u32,
    pub event: EventId,
    pub passed: bool,
}

/// A body's run: the event of the call that began it, none in a process, the event that last wrote
/// each local cell, and its tests, the latest at the top.
#[derive(Drop)]
pub struct Activation {
    pub call: Option<EventId>,
    pub tags: Seq<Option<EventId>>,
    pub tests: Stack<Test>,
}

/// A process with its activations, the running one at the top, the writers of the head statement's
/// answers, and the events so far.
#[derive(Drop)]
pub struct Tracing {
    pub proc: Proc,
    pub activations: Stack<Activation>,
    pub answers: Seq<Option<EventId>>,
    pub events: Seq<TracedEvent>,
}
