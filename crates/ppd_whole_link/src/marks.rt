// Which event of a process last wrote each shared cell in each internal edge, and which events are synchronizations.
ghost use Rattle.std.specs.Prelude.{◌≡◌, ◌<◌, ◌^◌, List, get_or, length, map, slice_get, unwrap_or, IfOk, OnOk};
ghost use Rattle.std.specs.FinMap as finite;
ghost use Rattle.ppd_whole_link.specs.Marks.{mark_event, marks_after, no_marks, syncs_if, syncs_past, written_if};
ghost use Rattle.law_flow.specs.Linked.{sync_event as sync_event_of};
ghost use Rattle.law_flow.specs.Writers.{written_in as written_in_events};
ghost use Rattle.ppd_whole_link.specs.Laws.{AreAllMarks};
ghost use Rattle.ppd_model.specs.HappenedBefore.{edge as edge_of};
ghost use Rattle.ppd_sem.specs.declared.event.Event.{Event};

use crate::follower::{edge_past, next};
use ppd_activations::ByNumber;
use ppd_ast::{Memory, Seq};
use ppd_model::{EventId, NodeId};
use ppd_sem::Event;
use ppd_whole_writes::{key, mark_if};
use std::alloc::Global;

/// What a process's events leave: of each shared cell and internal edge the number of the last event that writes the
/// cell in it, the numbers of the synchronizations in order, and the number of the next event with its edge.
#[derive(Drop)]
pub struct Marks {
    pub(crate) written: ByNumber<u32>,
    pub(crate) syncs: Seq<u32>,
    pub(crate) number: u32,
    pub(crate) edge: u32,
}

fn add_sync(syncs: &mut Seq<u32>, number: u32, sync: Option<u32>) -> Result<(), Memory>
    ensures { OnOk result (syncs.new ≡ syncs_past sync number syncs.old) }
{
    match sync {
        Some(_) => syncs.push(number),
        None => Ok(()),
    }
}

impl Marks {
    fn add(&mut self, event: &Event) -> Result<(), Memory>
        ensures { OnOk result (self.new ≡ mark_event self.old event.now) }
    {
        mark_if(&mut self.written, self.edge, self.number, event)?;
        add_sync(&mut self.syncs, self.number, event.number)?;
        self.number = next(self.number)?;
        self.edge = edge_past(self.edge, event.number)?;
        Ok(())
    }
}

/// What the events of a process leave. `Memory` is want of memory, also for events that have no 32-bit numbers.
pub fn marks_of(alloc: Global, events: &[&Event]) -> Result<Marks, Memory>
    ensures marks { IfOk result (λ marks. marks ≡ marks_after (map (λ e. e.now) events.now)) }
    ensures few { OnOk result (length events.now < 2 ^ 32) }
{
    if events.len() >= 4294967296 {
        return Err(Memory);
    }
    let mut marks = Marks {
        written: ByNumber::new(alloc),
        syncs: Seq::new(alloc),
        number: 0,
        edge: 0,
    };
    for event in events {
        marks.add(*event)?;
    }
    Ok(marks)
}

fn number_or_none(written: Option<u32>) -> u32
    ensures { result ≡ unwrap_or written 0 }
{
    match written {
        Some(number) => number,
        None => 0,
    }
}

fn written_at(marks: &[Marks], process: u8, key: u64) -> Option<u32>
    ensures { result ≡ finite.get (written_if (slice_get marks.now process)) key }
{
    match marks.get(process as usize) {
        Some(own) => own.written.get(key),
        None => None,
    }
}

/// The last event of an edge of a process that writes the cell, and event 0 where there is none.
pub fn written_in(marks: &[Marks], cell: u16, process: u8, edge: u32) -> EventId
    ensures { (events : List (List Event)) → AreAllMarks events marks.now
        → result ≡ written_in_events events cell (edge_of process edge) }
{
    let written = written_at(marks, process, key(cell, edge));
    EventId {
        process,
        number: number_or_none(written),
    }
}

fn number_at(syncs: &Seq<u32>, sync: u32) -> u32
    ensures { result ≡ get_or syncs.now sync 0 }
{
    match syncs.get(sync as usize) {
        Some(number) => *number,
        None => 0,
    }
}

fn sync_number(marks: &[Marks], node: NodeId) -> u32
    ensures { result ≡ get_or (syncs_if (slice_get marks.now node.process)) node.sync 0 }
{
    match marks.get(node.process as usize) {
        Some(own) => number_at(&own.syncs, node.sync),
        None => 0,
    }
}

/// The event that is a synchronization, and event 0 where there is none.
pub fn sync_event(marks: &[Marks], node: NodeId) -> EventId
    ensures { (events : List (List Event)) → AreAllMarks events marks.now
        → result ≡ sync_event_of events node.process node.sync }
{
    EventId {
        process: node.process,
        number: sync_number(marks, node),
    }
}
