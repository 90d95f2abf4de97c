ghost use Rattle.std.specs.Prelude.{◌≡◌, ◌<◌, ◌≤◌, ◌+◌, ◌*◌, [], None, length, map, IsTrue, IfNone, IfOk, OnOk, IfErr, ◌↔◌};
ghost use Rattle.ppd_graph.specs.ByNumber.{KeepsAll};
ghost use Rattle.ppd_graph.specs.Graphs.{IsGraphOf};
ghost use Rattle.ppd_model.specs.RecordedSets.{record_in};
ghost use Rattle.ppd_graph.specs.LogRecord.{AreFew};
ghost use Rattle.ppd_graph.specs.Partners.{pairs_of};
ghost use Rattle.ppd_graph.specs.Spending.{graph_cost, pairing_cost};
ghost use Rattle.ppd_graph.specs.Refusals.{AreNumbered, AreOrdered, IsRefused, IsRefusedFor, has_object as has_object_in, missing as missing_in, placed as placed_in, sync_placed, twice_after, without_object};

use crate::by_number::{ByNumber, keep_all};
use crate::greatest::Greatest;
use crate::missing::{Missing, Numbers};
use crate::paired::Paired;
use crate::partners::all_pairs;
use crate::placed::{Placed, all_placed};
use crate::rounds::{cycle, first_stuck};
use crate::sets::all_sets;
use crate::sync_graph::SyncGraph;
use crate::times::all_times;
use ppd_ast::limits::MOST_NAMED;
use ppd_ast::{Memory, Program, Seq, Steps, SyncKind};
use ppd_model::{At, BadSync, Entry, Logs, capacity_of};
use std::alloc::Global;
use std::marker::Brand;
use std::sync::ledger::{Blank, Ledger};

// Whether the program has an object of this kind; only a channel of capacity 0 has completions.
fn has_object(program: &Program, kind: SyncKind, object: u8) -> bool
    ensures { result ≡ has_object_in program.now kind object }
{
    let place = object as usize;
    match kind {
        SyncKind::P | SyncKind::V => place < program.sems.len(),
        SyncKind::Send | SyncKind::Recv => place < program.chans.len(),
        SyncKind::Done => place < program.chans.len() && capacity_of(program, object) == 0,
    }
}

// The place of the first synchronization without its object.
fn first_without_object<L: Ledger>(
    program: &Program,
    placed: &[Placed],
    steps: &mut Steps<L>,
) -> Option<At>
    ensures cost { steps.new ≤ steps.old + length placed.now }
    ensures taken { IfNone result (steps.new ≡ steps.old + length placed.now) }
    ensures value { result ≡ without_object program.now placed.now }
{
    for one in placed {
        steps.tick();
        if !has_object(program, one.kind, one.object) {
            return Some(one.at);
        }
    }
    None
}

// The first synchronization that is missing.
fn missing_among<L: Ledger>(
    alloc: Global,
    program: &Program,
    nodes: &ByNumber,
    placed: &[Placed],
    steps: &mut Steps<L>,
) -> Result<Option<Missing>, Memory>
    requires sems { length program.now.sems ≤ MOST_NAMED }
    requires chans { length program.now.chans ≤ MOST_NAMED }
    requires kept { KeepsAll nodes.now placed.now }
    ensures cost { IfOk result (λ found. found ≡ None → steps.new
        ≤ steps.old + 10 * length placed.now + 5 * MOST_NAMED + length program.now.sems + length program.now.chans) }
    ensures found { IfOk result (λ found. found ≡ missing_in program.now (map sync_placed placed.now)) }
{
    let greatest = Greatest::among(alloc, placed, steps)?;
    let numbers = Numbers {
        program,
        nodes,
        greatest: &greatest,
    };
    Ok(numbers.missing(steps))
}

// The last of the three tests: whether a synchronization is missing. The maps are borrowed, so that each way
// out has little to let go.
fn check_complete<L: Ledger>(
    alloc: Global,
    program: &Program,
    nodes: &ByNumber,
    placed: &[Placed],
    steps: &mut Steps<L>,
) -> Result<(), BadSync>
    requires sems { length program.now.sems ≤ MOST_NAMED }
    requires chans { length program.now.chans ≤ MOST_NAMED }
    requires objects { without_object program.now placed.now ≡ None }
    requires once { twice_after program.now [] placed.now ≡ None }
    requires kept { KeepsAll nodes.now placed.now }
    ensures cost { OnOk result
        (steps.new
        ≤ steps.old + 10 * length placed.now + 5 * MOST_NAMED + length program.now.sems + length program.now.chans) }
    ensures passed { OnOk result (AreNumbered program.now placed.now) }
    ensures refused { IfErr result (IsRefusedFor program.now placed.now) }
{
    if let Some((kind, object, number)) = missing_among(alloc, program, nodes, placed, steps)? {
        return Err(BadSync::NumberMissing(kind, object, number));
    }
    Ok(())
}

// The synchronizations by their numbers, or the first of the three tests on them that fails.
fn number_all<L: Ledger>(
    alloc: Global,
    program: &Program,
    placed: &[Placed],
    steps: &mut Steps<L>,
) -> Result<ByNumber, BadSync>
    requires sems { length program.now.sems ≤ MOST_NAMED }
    requires chans { length program.now.chans ≤ MOST_NAMED }
    ensures cost { IfOk result
        (λ nodes. steps.new
        ≤ steps.old + 12 * length placed.now + 5 * MOST_NAMED + length program.now.sems + length program.now.chans) }
    ensures kept { IfOk result (λ nodes. KeepsAll nodes placed.now) }
    ensures passed { OnOk result (AreNumbered program.now placed.now) }
    ensures refused { IfErr result (IsRefusedFor program.now placed.now) }
{
    if let Some(at) = first_without_object(program, placed, steps) {
        return Err(BadSync::NoObject(at));
    }
    let nodes = keep_all(alloc, program, placed, steps)?;
    check_complete(alloc, program, &nodes, placed, steps)?;
    Ok(nodes)
}

// What led to each synchronization of the logs.
fn pair_all<L: Ledger>(
    alloc: Global,
    program: &Program,
    logs: &Logs,
    steps: &mut Steps<L>,
) -> Result<Seq<Seq<Paired>>, BadSync>
    requires sems { length program.now.sems ≤ MOST_NAMED }
    requires chans { length program.now.chans ≤ MOST_NAMED }
    requires processes { length logs.now.lists ≤ MOST_NAMED }
    requires few { AreFew logs.now.lists }
    ensures cost { IfOk result (λ pairs. steps.new ≤ steps.old + pairing_cost program.now logs.now) }
    ensures pairs { IfOk result (λ pairs. pairs ≡ pairs_of program.now (record_in logs.now)) }
    ensures passed { OnOk result (AreNumbered program.now (placed_in logs.now)) }
    ensures refused { IfErr result (IsRefusedFor program.now (placed_in logs.now)) }
{
    let lists = logs.lists.as_slice();
    let placed = all_placed(alloc, lists, steps)?;
    let nodes = number_all(alloc, program, placed.as_slice(), steps)?;
    drop(placed);
    let pairs = all_pairs(alloc, program, &nodes, lists, steps)?;
    Ok(pairs)
}

// Whether the entries of each list have 32-bit numbers, and one is left.
fn are_few<L: Ledger>(lists: &[Seq<Entry>], steps: &mut Steps<L>) -> bool
    ensures cost { steps.new ≤ steps.old + length lists.now }
    ensures taken { IsTrue result → steps.new ≡ steps.old + length lists.now }
    ensures few { IsTrue result ↔ AreFew lists.now }
{
    for list in lists {
        steps.tick();
        if list.len() >= 0xffff_ffff {
            return false;
        }
    }
    true
}

/// The graph of the logs, as `graph` answers it. It is made in steps that are linear in the entries times the
/// processes:
/// a vector time has a count for each process.
pub fn graph_in<L: Ledger>(
    alloc: Global,
    program: &Program,
    logs: &Logs,
    steps: &mut Steps<L>,
) -> Result<SyncGraph, BadSync>
    requires sems { length program.now.sems ≤ MOST_NAMED }
    requires chans { length program.now.chans ≤ MOST_NAMED }
    requires processes { length logs.now.lists ≤ MOST_NAMED }
    ensures graph { IfOk result (IsGraphOf program.now logs.now) }
    ensures passed { OnOk result (AreOrdered program.now logs.now) }
    ensures refused { IfErr result (IsRefused program.now logs.now) }
    ensures cost { IfOk result (λ graph. steps.new ≤ steps.old + graph_cost program.now logs.now) }
{
    if !are_few(logs.lists.as_slice(), steps) {
        return Err(BadSync::Memory);
    }
    let pairs = pair_all(alloc, program, logs, steps)?;
    let times = all_times(alloc, pairs.as_slice(), steps)?;
    if let Some(start) = first_stuck(pairs.as_slice(), times.as_slice(), steps) {
        let nodes = cycle(alloc, pairs.as_slice(), times.as_slice(), start)?;
        return Err(BadSync::Cycle(nodes));
    }
    let edges = all_sets(alloc, logs.lists.as_slice(), steps)?;
    Ok(SyncGraph {
        edges,
        times: Seq::from_vec(times),
        pairs,
    })
}

// The graph of the logs, with steps that nobody reads.
fn graph_from<L: Ledger>(
    alloc: Global,
    program: &Program,
    logs: &Logs,
    blank: Blank,
) -> Result<SyncGraph, BadSync>
    requires name { blank.name ≡ L.name }
    requires parts { blank.parts ≡ L.parts }
    requires some { 0 < blank.parts }
    requires sems { length program.now.sems ≤ MOST_NAMED }
    requires chans { length program.now.chans ≤ MOST_NAMED }
    requires processes { length logs.now.lists ≤ MOST_NAMED }
    ensures graph { IfOk result (IsGraphOf program.now logs.now) }
    ensures passed { OnOk result (AreOrdered program.now logs.now) }
    ensures refused { IfErr result (IsRefused program.now logs.now) }
{
    let mut steps: Steps<L> = Steps::new(blank);
    graph_in(alloc, program, logs, &mut steps)
}

/// The graph of the logs, or the first reason why they have none. `Memory` is want of memory, also for a log
/// whose entries have no 32-bit numbers. It is made in the steps that `graph_in` counts.
pub fn graph(alloc: Global, program: &Program, logs: &Logs) -> Result<SyncGraph, BadSync>
    requires sems { length program.now.sems ≤ MOST_NAMED }
    requires chans { length program.now.chans ≤ MOST_NAMED }
    requires processes { length logs.now.lists ≤ MOST_NAMED }
    ensures graph { IfOk result (IsGraphOf program.now logs.now) }
    ensures passed { OnOk result (AreOrdered program.now logs.now) }
    ensures refused { IfErr result (IsRefused program.now logs.now) }
{
    graph_from::<Brand>(alloc, program, logs, Blank::new(1))
}
