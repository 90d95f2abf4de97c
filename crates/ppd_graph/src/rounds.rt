ghost use Rattle.std.specs.Prelude.{◌≡◌, ◌<◌, ◌≤◌, ◌+◌, ◌-◌, ◌^◌, ℕ, [], ◌∷◌, ◌++◌, length, get_or, drop, IfNone, IfOk, OnOk, MatchOption};
ghost use Rattle.ppd_graph.specs.Cycles.{AllWait, AreAtLeast, IsRoundOf, IsRoundsCycle, IsStuck, IsTurned, cycle_of, first_or, stretch, through_first, waited as waited_of};
ghost use Rattle.ppd_graph.specs.Times.{HasAll, next_of, own_pairs, own_times};

use crate::paired::Paired;
use crate::times::{done_count, pair_count, partner_at};
use ppd_ast::limits::MOST_NAMED;
use ppd_ast::{Ids, Memory, Seq, Steps};
use ppd_model::NodeId;
use std::alloc::Global;
use std::sync::ledger::Ledger;

/// The first process with a synchronization that has no time.
pub(crate) fn first_stuck<L: Ledger>(
    pairs: &[Seq<Paired>],
    times: &[Seq<Ids>],
    steps: &mut Steps<L>,
) -> Option<u8>
    requires { length pairs.now ≤ MOST_NAMED }
    ensures cost { steps.new ≤ steps.old + length pairs.now }
    ensures taken { IfNone result (steps.new ≡ steps.old + length pairs.now) }
    ensures stuck { MatchOption result ((q : ℕ) → HasAll pairs.now times.now q) (λ q. IsStuck pairs.now times.now q) }
{
    for q in 0..pairs.len() {
        steps.tick();
        if done_count(times, q) < pair_count(pairs, q) {
            return Some(q as u8);
        }
    }
    None
}

// What the next of process q waits for, if it waits.
fn waited(pairs: &[Seq<Paired>], times: &[Seq<Ids>], q: u8) -> NodeId
    requires { length (own_times times.now q) < 2 ^ 32 }
    ensures { result ≡ waited_of pairs.now times.now q }
{
    let done = done_count(times, q as usize);
    match partner_at(pairs, q as usize, done) {
        Paired::Node(a) => a,
        _ => NodeId {
            process: q,
            sync: done as u32,
        },
    }
}

fn push_front(path: &mut Vec<u8>, q: u8) -> Result<(), Memory>
    ensures { OnOk result (path.new.items ≡ q ∷ path.old.items) }
{
    path.insert(0, q)?;
    Ok(())
}

fn push_last(path: &mut Vec<u8>, q: u8) -> Result<(), Memory>
    ensures { OnOk result (path.new.items ≡ path.old.items ++ q ∷ []) }
{
    path.push(q)?;
    Ok(())
}

// The list through the first q in it.
fn front_through(alloc: Global, path: &[u8], q: u8) -> Result<Vec<u8>, Memory>
    ensures { IfOk result (λ front. front.items ≡ through_first q path.now) }
{
    let mut front = Vec::new(alloc);
    for x in path {
        push_last(&mut front, *x)?;
        if *x == q {
            return Ok(front);
        }
    }
    Ok(front)
}

// Processes each of which waits for the one before it, the first for the last.
fn walk(
    alloc: Global,
    pairs: &[Seq<Paired>],
    times: &[Seq<Ids>],
    start: u8,
) -> Result<Vec<u8>, Memory>
    requires wait { AllWait pairs.now times.now }
    requires start { IsStuck pairs.now times.now start }
    requires few { (q : ℕ) → length (own_pairs pairs.now q) + 1 < 2 ^ 32 }
    ensures { IfOk result (λ round. IsRoundOf pairs.now times.now round.items) }
{
    let mut path = Vec::new(alloc);
    let mut at = start;
    while !path.contains(&at) {
        push_front(&mut path, at)?;
        at = waited(pairs, times, at).process;
    }
    front_through(alloc, path.as_slice(), at)
}

// A place of the least number.
fn least_place(round: &[u8]) -> usize
    requires { 0 < length round.now }
    ensures place { result < length round.now }
    ensures least { AreAtLeast (get_or round.now result 0) round.now }
{
    let mut least = 0;
    for (index, process) in round.iter().enumerate() {
        if *process < round[least] {
            least = index;
        }
    }
    least
}

// The same processes from the least.
fn turn(round: &mut Vec<u8>)
    requires { 0 < length round.old.items }
    ensures { IsTurned round.old.items round.new.items }
{
    let place = least_place(round.as_slice());
    round.as_mut_slice().rotate_left(place);
}

// From the next of x as far as the next of y waits for it.
fn push_run(
    nodes: &mut Seq<NodeId>,
    pairs: &[Seq<Paired>],
    times: &[Seq<Ids>],
    x: u8,
    y: u8,
) -> Result<(), Memory>
    requires first { length (own_times times.now x) < 2 ^ 32 }
    requires second { length (own_times times.now y) < 2 ^ 32 }
    ensures { OnOk result (nodes.new ≡ nodes.old ++ next_of times.now x ∷ stretch pairs.now times.now x y) }
{
    let first = done_count(times, x as usize);
    let last = waited(pairs, times, y).sync as usize;
    let count = last.saturating_sub(first);
    nodes.push(NodeId {
        process: x,
        sync: first as u32,
    })?;
    for k in 0..count {
        let sync = (first + 1 + k) as u32;
        nodes.push(NodeId { process: x, sync })?;
    }
    Ok(())
}

fn next_in(round: &[u8], index: usize) -> u8
    requires { index < length round.now }
    ensures { result ≡ first_or (drop (index + 1) round.now) (first_or round.now 0) }
{
    if index + 1 < round.len() {
        round[index + 1]
    } else {
        round[0]
    }
}

// The synchronizations of a round.
fn nodes_of(
    alloc: Global,
    pairs: &[Seq<Paired>],
    times: &[Seq<Ids>],
    round: &[u8],
) -> Result<Seq<NodeId>, Memory>
    requires { (q : ℕ) → length (own_times times.now q) < 2 ^ 32 }
    ensures { IfOk result (λ nodes. nodes ≡ cycle_of pairs.now times.now round.now) }
{
    let mut nodes = Seq::new(alloc);
    for (index, process) in round.iter().enumerate() {
        let next = next_in(round, index);
        push_run(&mut nodes, pairs, times, *process, next)?;
    }
    Ok(nodes)
}

/// A cycle of what has no time, from its least synchronization.
pub(crate) fn cycle(
    alloc: Global,
    pairs: &[Seq<Paired>],
    times: &[Seq<Ids>],
    start: u8,
) -> Result<Seq<NodeId>, Memory>
    requires wait { AllWait pairs.now times.now }
    requires start { IsStuck pairs.now times.now start }
    requires few { (q : ℕ) → length (own_pairs pairs.now q) + 1 < 2 ^ 32 }
    requires done { (q : ℕ) → length (own_times times.now q) < 2 ^ 32 }
    ensures { IfOk result (λ nodes. IsRoundsCycle pairs.now times.now nodes) }
{
    let mut round = walk(alloc, pairs, times, start)?;
    turn(&mut round);
    let nodes = nodes_of(alloc, pairs, times, round.as_slice())?;
    Ok(nodes)
}
