// A process, followed by its events alone, with its last write of each shared cell.
ghost use Rattle.std.specs.Prelude.{◌≡◌, fold, get_or, None, IfOk, OnOk};
ghost use Rattle.std.specs.FinMap as finite;
ghost use Rattle.ppd_activations.specs.Runs.{parent_of as parent_of_runs, top_tags};
ghost use Rattle.ppd_whole_link.specs.Linkers.{link, own_access, own_in, own_past, own_spot, unlinked};

use crate::follower::Follower;
use ppd_activations::ByNumber;
use ppd_ast::{Memory, Program};
use ppd_model::EventId;
use ppd_sem::{Access, Event, Spot};
use std::alloc::Global;

/// A write of a shared cell: its event's number and edge.
#[derive(Clone, Copy)]
pub struct Mark {
    pub(crate) edge: u32,
    pub(crate) number: u32,
}

/// A process after some of its events, followed by them alone, and its last write of each shared cell.
#[derive(Drop)]
pub struct Linker {
    pub(crate) follower: Follower,
    pub(crate) own: ByNumber<Mark>,
}

fn mark_spot(own: &mut ByNumber<Mark>, mark: Mark, spot: Spot) -> Result<(), Memory>
    ensures { OnOk result (own.new ≡ own_spot mark own.old spot) }
{
    match spot {
        Spot::Local { .. } => Ok(()),
        Spot::Shared(cell) => own.set(cell as u64, mark),
    }
}

fn mark_writes(own: &mut ByNumber<Mark>, mark: Mark, writes: &[Access]) -> Result<(), Memory>
    ensures { OnOk result (own.new ≡ fold (own_access mark) own.old writes.now) }
{
    for access in writes {
        mark_spot(own, mark, access.spot)?;
    }
    Ok(())
}

fn mark_if(own: &mut ByNumber<Mark>, mark: Mark, event: &Event) -> Result<(), Memory>
    ensures { OnOk result (own.new ≡ own_past event.now.number mark event.now.writes own.old) }
{
    match event.number {
        Some(_) => Ok(()),
        None => mark_writes(own, mark, event.writes.as_slice()),
    }
}

/// The event's number of a mark of this edge.
fn number_in(edge: u32, mark: Option<Mark>) -> Option<u32>
    ensures { result ≡ own_in edge mark }
{
    match mark {
        Some(mark) => {
            if mark.edge == edge {
                Some(mark.number)
            } else {
                None
            }
        }
        None => None,
    }
}

impl Linker {
    /// A process before its first event. `Memory` is want of memory, here and below.
    pub fn new(alloc: Global, program: &Program, process: u8) -> Result<Linker, Memory>
        ensures { IfOk result (λ x. x ≡ unlinked program.now process) }
    {
        let follower = Follower::new(alloc, program, process)?;
        Ok(Linker {
            follower,
            own: ByNumber::new(alloc),
        })
    }

    /// The internal edge in which the next event lies.
    pub fn edge(&self) -> u32
        ensures { result ≡ self.now.follower.edge }
    {
        self.follower.edge
    }

    /// The event that last wrote a local cell of the running body.
    pub fn local(&self, cell: u16) -> Option<EventId>
        ensures { result ≡ get_or (top_tags self.now.follower.runs) cell None }
    {
        self.follower.local(cell)
    }

    /// The number of the event that last wrote a shared cell, if it lies in the edge of the next event.
    pub fn written(&self, cell: u16) -> Option<u32>
        ensures { result ≡ own_in self.now.follower.edge (finite.get self.now.own cell) }
    {
        number_in(self.follower.edge, self.own.get(cell as u64))
    }

    /// The control parent of the next event, one of this statement.
    pub fn parent(&self, program: &Program, stmt: u32) -> Option<EventId>
        ensures { result ≡ parent_of_runs program.now self.now.follower.runs stmt }
    {
        self.follower.parent(program, stmt)
    }

    /// One more event. `Memory` also for an event that has no 32-bit number.
    pub fn add(
        &mut self,
        alloc: Global,
        program: &Program,
        process: u8,
        event: &Event,
    ) -> Result<(), Memory>
        ensures { OnOk result (self.new ≡ link program.now process self.old event.now) }
    {
        let mark = Mark {
            edge: self.follower.edge,
            number: self.follower.number,
        };
        mark_if(&mut self.own, mark, event)?;
        self.follower.follow(alloc, program, process, event)
    }
}
