// A process, followed by its events alone.
ghost use Rattle.std.specs.Prelude.{◌≡◌, ◌+◌, ◌<◌, get_or, None, Some, IfOk, OnOk};
ghost use Rattle.ppd_ast.specs.Lookups.{kind_of, body_numbered};
ghost use Rattle.law_flow.specs.Following.{calls_by_kind, calls_unless, edge_past as edge_past_of, top_of};
ghost use Rattle.ppd_activations.specs.Runs.{begun_run as begun_run_of, parent_of as parent_of_runs, top_tags as top_tags_of, with_test};
ghost use Rattle.ppd_whole_link.specs.Runs.{begun, follow as follow_of, tagged_unless};

use crate::tags::tag_event;
use ppd_activations::{Run, add_test, begun_run, parent_of, tag_in, top_tags};
use ppd_ast::{Kind, Memory, Program, Steps};
use ppd_model::EventId;
use ppd_sem::{Event, Stack};
use ppd_whole_writes::At;
use std::alloc::Global;
use std::marker::Brand;
use std::sync::ledger::{Blank, Ledger};

/// A process after some of its events: the runs of its bodies with the calls that began them, the running one at the
/// top, the number of the next event, and the internal edge in which that lies.
#[derive(Drop)]
pub(crate) struct Follower {
    pub(crate) runs: Stack<Run>,
    pub(crate) calls: Stack<Option<u32>>,
    pub(crate) number: u32,
    pub(crate) edge: u32,
}

/// The next number. `Memory` where it has more than 32 bits.
pub(crate) fn next(number: u32) -> Result<u32, Memory>
    ensures { IfOk result (λ after. after ≡ number + 1) }
{
    match number.checked_add(1) {
        Some(after) => Ok(after),
        None => Err(Memory),
    }
}

/// The edge after an event: a synchronization ends its edge.
pub(crate) fn edge_past(edge: u32, number: Option<u32>) -> Result<u32, Memory>
    ensures { IfOk result (λ after. after ≡ edge_past_of edge number) }
{
    match number {
        Some(_) => next(edge),
        None => Ok(edge),
    }
}

/// How many local cells a process's body has.
fn cells_of(program: &Program, process: u8) -> usize
    ensures { result ≡ (body_numbered program.now (program.now.functions + process)).cells }
{
    match program
        .bodies
        .get(program.functions as usize + process as usize)
    {
        Some(body) => body.cells as usize,
        None => 0,
    }
}

/// The run of a process's body, with steps that nobody reads.
fn begun_from<L: Ledger>(alloc: Global, count: usize, blank: Blank) -> Result<Run, Memory>
    requires name { blank.name ≡ L.name }
    requires parts { blank.parts ≡ L.parts }
    requires some { 0 < blank.parts }
    ensures { IfOk result (λ run. run ≡ begun_run_of count) }
{
    let mut steps: Steps<L> = Steps::new(blank);
    begun_run(alloc, count, &mut steps)
}

/// The control parent of the next event, with steps that nobody reads.
fn parent_from<L: Ledger>(
    program: &Program,
    runs: &Stack<Run>,
    stmt: u32,
    blank: Blank,
) -> Option<EventId>
    requires name { blank.name ≡ L.name }
    requires parts { blank.parts ≡ L.parts }
    requires some { 0 < blank.parts }
    ensures { result ≡ parent_of_runs program.now runs.now stmt }
{
    let mut steps: Steps<L> = Steps::new(blank);
    parent_of(program, runs, stmt, &mut steps)
}

/// The runs after an event, with steps that nobody reads.
fn add_from<L: Ledger>(
    at: &At,
    me: EventId,
    event: &Event,
    runs: &mut Stack<Run>,
    blank: Blank,
) -> Result<(), Memory>
    requires name { blank.name ≡ L.name }
    requires parts { blank.parts ≡ L.parts }
    requires some { 0 < blank.parts }
    ensures { OnOk result
        (runs.new
        ≡ tagged_unless event.now.trap at.now.program.now at.now.call (Some me) event.now
        (with_test at.now.program.now me event.now runs.old)) }
{
    let mut steps: Steps<L> = Steps::new(blank);
    add_test(at.program, me, event, runs, &mut steps)?;
    tag_event(at, Some(me), event, runs, &mut steps)
}

/// The call that began the running body.
fn top_call(calls: &Stack<Option<u32>>) -> Option<u32>
    ensures { result ≡ top_of calls.now }
{
    match calls.top() {
        Some(call) => *call,
        None => None,
    }
}

fn add_call(calls: &mut Stack<Option<u32>>, stmt: u32, kind: &Kind) -> Result<(), Memory>
    ensures { OnOk result (calls.new ≡ calls_by_kind stmt kind.now calls.old) }
{
    match kind {
        Kind::Call { .. } => calls.push(Some(stmt)),
        Kind::Return(_) => {
            calls.pop();
            Ok(())
        }
        _ => Ok(()),
    }
}

fn add_finished(
    program: &Program,
    calls: &mut Stack<Option<u32>>,
    event: &Event,
) -> Result<(), Memory>
    ensures { OnOk result
        (calls.new ≡ calls_by_kind event.now.stmt (kind_of program.now event.now.stmt) calls.old) }
{
    match program.stmts.get(event.stmt as usize) {
        Some(stmt) => add_call(calls, event.stmt, &stmt.kind),
        None => Ok(()),
    }
}

fn call_on(program: &Program, calls: &mut Stack<Option<u32>>, event: &Event) -> Result<(), Memory>
    ensures { OnOk result
        (calls.new
        ≡ calls_unless event.now.trap event.now.stmt (kind_of program.now event.now.stmt) calls.old) }
{
    match event.trap {
        Some(_) => Ok(()),
        None => add_finished(program, calls, event),
    }
}

impl Follower {
    /// A process before its first event. `Memory` is want of memory, here and below.
    pub(crate) fn new(alloc: Global, program: &Program, process: u8) -> Result<Follower, Memory>
        ensures { IfOk result (λ f. f ≡ begun program.now process) }
    {
        let run = begun_from::<Brand>(alloc, cells_of(program, process), Blank::new(1))?;
        let mut runs = Stack::new(alloc);
        runs.push(run)?;
        let mut calls = Stack::new(alloc);
        calls.push(None)?;
        Ok(Follower {
            runs,
            calls,
            number: 0,
            edge: 0,
        })
    }

    /// The event that last wrote a local cell of the running body.
    pub(crate) fn local(&self, cell: u16) -> Option<EventId>
        ensures { result ≡ get_or (top_tags_of self.now.runs) cell None }
    {
        tag_in(top_tags(&self.runs), cell as usize)
    }

    /// The control parent of the next event, one of this statement.
    pub(crate) fn parent(&self, program: &Program, stmt: u32) -> Option<EventId>
        ensures { result ≡ parent_of_runs program.now self.now.runs stmt }
    {
        parent_from::<Brand>(program, &self.runs, stmt, Blank::new(1))
    }

    /// One more event. `Memory` also for an event that has no 32-bit number.
    pub(crate) fn follow(
        &mut self,
        alloc: Global,
        program: &Program,
        process: u8,
        event: &Event,
    ) -> Result<(), Memory>
        ensures { OnOk result (self.new ≡ follow_of program.now process self.old event.now) }
    {
        let me = EventId {
            process,
            number: self.number,
        };
        let at = At {
            alloc,
            program,
            call: top_call(&self.calls),
        };
        add_from::<Brand>(&at, me, event, &mut self.runs, Blank::new(1))?;
        call_on(program, &mut self.calls, event)?;
        self.number = next(self.number)?;
        self.edge = edge_past(self.edge, event.number)?;
        Ok(())
    }
}
