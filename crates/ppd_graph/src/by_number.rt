ghost use Rattle.std.specs.Prelude.{◌≡◌, ◌≤◌, ◌+◌, [], None, IfOk, IfErr, OnOk, length};
ghost use Rattle.ppd_graph.specs.ByNumber.{IsTwice, KeepsAll, KeepsMore, KeepsNone, Puts, found_in, is_twice as is_twice_of, node_kept};
ghost use Rattle.ppd_graph.specs.Refusals.{is_from_start as is_from_start_of, start_of as start_in_program, sync_placed, twice_after};

use crate::placed::Placed;
use ppd_ast::{Memory, Program, Steps, SyncKind};
use ppd_model::{BadSync, NodeId};
use std::alloc::Global;
use std::collections::HashMap;
use std::sync::ledger::Ledger;

/// The synchronizations of one kind by object and number.
type Nodes = HashMap<(u8, u32), NodeId>;

/// The synchronizations of logs by kind, object and number.
#[derive(Drop)]
pub(crate) struct ByNumber {
    takes: Nodes,
    gives: Nodes,
    sends: Nodes,
    receives: Nodes,
    completions: Nodes,
}

fn found(nodes: &Nodes, object: u8, number: u32) -> Option<NodeId>
    ensures { result ≡ found_in nodes.now object number }
{
    nodes.get(&(object, number)).copied()
}

fn put(nodes: &mut Nodes, object: u8, number: u32, node: NodeId) -> Result<(), Memory>
    ensures { OnOk result (Puts nodes.old nodes.new object number node) }
{
    nodes.insert((object, number), node)?;
    Ok(())
}

/// The initial value of a semaphore, and 0 past the table.
pub(crate) fn start_of(program: &Program, sem: u8) -> u32
    ensures { result ≡ start_in_program program.now sem }
{
    match program.sems.get(sem as usize) {
        Some(sem) => sem.start,
        None => 0,
    }
}

// Whether a `V` has a number that its semaphore has from the start.
fn is_from_start(program: &Program, one: &Placed) -> bool
    ensures { result ≡ is_from_start_of program.now (sync_placed one.now) }
{
    match one.kind {
        SyncKind::V => one.number <= start_of(program, one.object),
        _ => false,
    }
}

impl ByNumber {
    fn new(alloc: Global) -> ByNumber
        ensures { KeepsNone result }
    {
        ByNumber {
            takes: HashMap::new(alloc),
            gives: HashMap::new(alloc),
            sends: HashMap::new(alloc),
            receives: HashMap::new(alloc),
            completions: HashMap::new(alloc),
        }
    }

    /// Where the synchronization of this kind, object and number stands.
    pub(crate) fn find(&self, kind: SyncKind, object: u8, number: u32) -> Option<NodeId>
        ensures { result ≡ node_kept self.now kind object number }
    {
        match kind {
            SyncKind::P => found(&self.takes, object, number),
            SyncKind::V => found(&self.gives, object, number),
            SyncKind::Send => found(&self.sends, object, number),
            SyncKind::Recv => found(&self.receives, object, number),
            SyncKind::Done => found(&self.completions, object, number),
        }
    }

    fn keep(&mut self, one: &Placed) -> Result<(), Memory>
        ensures { OnOk result (KeepsMore self.old self.new one.now) }
    {
        match one.kind {
            SyncKind::P => put(&mut self.takes, one.object, one.number, one.node),
            SyncKind::V => put(&mut self.gives, one.object, one.number, one.node),
            SyncKind::Send => put(&mut self.sends, one.object, one.number, one.node),
            SyncKind::Recv => put(&mut self.receives, one.object, one.number, one.node),
            SyncKind::Done => put(&mut self.completions, one.object, one.number, one.node),
        }
    }

    // Whether its number stood before, or is one from the start.
    fn is_twice(&self, program: &Program, one: &Placed) -> bool
        ensures { result ≡ is_twice_of program.now self.now one.now }
    {
        self.find(one.kind, one.object, one.number).is_some() || is_from_start(program, one)
    }
}

/// Keeps the synchronizations by their numbers. `NumberTwice` is the first whose number stood before, or is one
/// that a semaphore has from the start.
pub(crate) fn keep_all<L: Ledger>(
    alloc: Global,
    program: &Program,
    placed: &[Placed],
    steps: &mut Steps<L>,
) -> Result<ByNumber, BadSync>
    ensures cost { steps.new ≤ steps.old + length placed.now }
    ensures taken { OnOk result (steps.new ≡ steps.old + length placed.now) }
    ensures kept { IfOk result (λ numbers. KeepsAll numbers placed.now) }
    ensures once { IfOk result (λ numbers. twice_after program.now [] placed.now ≡ None) }
    ensures twice { IfErr result (IsTwice program.now placed.now) }
{
    let mut numbers = ByNumber::new(alloc);
    for one in placed {
        steps.tick();
        if numbers.is_twice(program, one) {
            return Err(BadSync::NumberTwice(one.at));
        }
        numbers.keep(one)?;
    }
    Ok(numbers)
}
