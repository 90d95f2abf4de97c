ghost use Rattle.std.specs.Prelude.{◌≡◌, ◌↔◌, ◌<◌, ◌≤◌, ◌^◌, ℕ, ◌+◌, [], ◌∷◌, ◌++◌, length, get_or, replicate, IsTrue, IfNone, IfOk, OnOk, MatchOption};
ghost use Rattle.ppd_model.specs.HappenedBefore.{node};
ghost use Rattle.ppd_graph.specs.Spending.{times_cost};
ghost use Rattle.ppd_graph.specs.Times.{AreTimed, IsDone, IsReady, next_count, next_time as next_time_of, node_of as node_in, own_pairs, own_times, pair_at, time_at, time_before, time_paired, with_time};

use crate::paired::Paired;
use ppd_ast::{Ids, Memory, Seq, Steps};
use ppd_model::NodeId;
use std::alloc::Global;
use std::sync::ledger::Ledger;

/// The vector times of the processes' synchronizations, a list for each process.
pub(crate) type Times = Vec<Seq<Ids>>;

fn has_time(times: &[Seq<Ids>], a: NodeId) -> bool
    ensures { IsTrue result ↔ IsDone times.now a }
{
    match times.get(a.process as usize) {
        Some(own) => (a.sync as usize) < own.len(),
        None => false,
    }
}

// How many synchronizations of process q have their times.
pub(crate) fn done_count(times: &[Seq<Ids>], q: usize) -> usize
    ensures { result ≡ length (own_times times.now q) }
{
    match times.get(q) {
        Some(own) => own.len(),
        None => 0,
    }
}

// The partner of a synchronization, and nothing past the lists.
pub(crate) fn partner_at(pairs: &[Seq<Paired>], q: usize, j: usize) -> Paired
    ensures { result ≡ pair_at pairs.now (node q j) }
{
    let Some(own) = pairs.get(q) else {
        return Paired::Nothing;
    };
    match own.get(j) {
        Some(partner) => *partner,
        None => Paired::Nothing,
    }
}

pub(crate) fn pair_count(pairs: &[Seq<Paired>], q: usize) -> usize
    ensures { result ≡ length (own_pairs pairs.now q) }
{
    match pairs.get(q) {
        Some(own) => own.len(),
        None => 0,
    }
}

// Whether the next of process q is there, and its partner has its time, if it has one.
fn is_ready(pairs: &[Seq<Paired>], times: &[Seq<Ids>], q: usize) -> bool
    ensures { IsTrue result ↔ IsReady pairs.now times.now q }
{
    let done = done_count(times, q);
    if done >= pair_count(pairs, q) {
        return false;
    }
    match partner_at(pairs, q, done) {
        Paired::Node(a) => has_time(times, a),
        _ => true,
    }
}

// A process whose next synchronization is ready.
fn ready<L: Ledger>(
    pairs: &[Seq<Paired>],
    times: &[Seq<Ids>],
    steps: &mut Steps<L>,
) -> Option<usize>
    ensures cost { steps.new ≤ steps.old + length pairs.now }
    ensures taken { MatchOption result (steps.new ≡ steps.old + length pairs.now) (λ q. steps.new ≡ steps.old + q + 1) }
    ensures ready { MatchOption result ((q : ℕ) → IsReady pairs.now times.now q → ⊥)
        (λ q. IsReady pairs.now times.now q) }
{
    for q in 0..pairs.len() {
        steps.tick();
        if is_ready(pairs, times, q) {
            return Some(q);
        }
    }
    None
}

// The time of the next of process q, whose partner has its time.
fn next_time<L: Ledger>(
    alloc: Global,
    pairs: &[Seq<Paired>],
    times: &[Seq<Ids>],
    q: usize,
    steps: &mut Steps<L>,
) -> Result<Ids, Memory>
    requires few { length (own_times times.now q) + 1 < 2 ^ 32 }
    ensures cost { steps.new ≤ steps.old + length pairs.now }
    ensures taken { OnOk result (steps.new ≡ steps.old + length pairs.now) }
    ensures time { IfOk result (λ time. time ≡ next_time_of pairs.now times.now q) }
{
    let done = done_count(times, q);
    let mut time = Ids::new(alloc);
    for p in 0..pairs.len() {
        steps.tick();
        let count = count_next(pairs, times, q, done, p);
        time.push(count)?;
    }
    Ok(time)
}

// The count for process p of a synchronization of a process, and 0 past the lists.
pub(crate) fn count_at(times: &[Seq<Ids>], q: usize, j: usize, p: usize) -> u32
    ensures { result ≡ time_at times.now (node q j) p }
{
    let Some(own) = times.get(q) else {
        return 0;
    };
    let Some(time) = own.get(j) else {
        return 0;
    };
    match time.get(p) {
        Some(count) => *count,
        None => 0,
    }
}

// The count for process p of the one before number j of process q.
fn count_before(times: &[Seq<Ids>], q: usize, j: usize, p: usize) -> u32
    ensures { result ≡ get_or (time_before times.now q j) p 0 }
{
    if j == 0 {
        return 0;
    }
    count_at(times, q, j - 1, p)
}

// The count for process p of the partner.
fn count_paired(times: &[Seq<Ids>], partner: Paired, p: usize) -> u32
    ensures { result ≡ get_or (time_paired times.now (node_in partner)) p 0 }
{
    match partner {
        Paired::Node(a) => count_at(times, a.process as usize, a.sync as usize, p),
        _ => 0,
    }
}

// The count for process p of the next of process q, which has this number.
fn count_next(pairs: &[Seq<Paired>], times: &[Seq<Ids>], q: usize, j: usize, p: usize) -> u32
    requires few { j + 1 < 2 ^ 32 }
    ensures { result
        ≡ next_count q j (time_before times.now q j)
        (time_paired times.now (node_in (pair_at pairs.now (node q j)))) p }
{
    if p == q {
        return j as u32 + 1;
    }
    let own = count_before(times, q, j, p);
    let paired = count_paired(times, partner_at(pairs, q, j), p);
    own.max(paired)
}

fn push_one(own: &mut Seq<Ids>, time: Ids) -> Result<(), Memory>
    ensures { OnOk result (own.new ≡ own.old ++ time ∷ []) }
{
    own.push(time)
}

// Appends a time to those of its process.
fn push_time(times: &mut Times, q: usize, time: Ids) -> Result<(), Memory>
    ensures { OnOk result (times.new.items ≡ with_time q time times.old.items) }
{
    if q >= times.len() {
        return Ok(());
    }
    push_one(&mut times[q], time)
}

fn push_empty(times: &mut Times, alloc: Global) -> Result<(), Memory>
    ensures { OnOk result (times.new.items ≡ times.old.items ++ [] ∷ []) }
{
    times.push(Seq::new(alloc))?;
    Ok(())
}

fn no_times<L: Ledger>(alloc: Global, count: usize, steps: &mut Steps<L>) -> Result<Times, Memory>
    ensures cost { steps.new ≤ steps.old + count }
    ensures taken { OnOk result (steps.new ≡ steps.old + count) }
    ensures none { IfOk result (λ times. times.items ≡ replicate count []) }
{
    let mut times = Vec::new(alloc);
    for _index in 0..count {
        steps.tick();
        push_empty(&mut times, alloc)?;
    }
    Ok(times)
}

/// The vector times, as far as they go: of no process the next is ready.
pub(crate) fn all_times<L: Ledger>(
    alloc: Global,
    pairs: &[Seq<Paired>],
    steps: &mut Steps<L>,
) -> Result<Times, Memory>
    requires few { (q : ℕ) → length (own_pairs pairs.now q) + 1 < 2 ^ 32 }
    ensures timed { IfOk result (λ times. AreTimed pairs.now times.items) }
    ensures cost { IfOk result (λ times. steps.new ≤ steps.old + times_cost pairs.now) }
    ensures stopped { IfOk result (λ times. (q : ℕ) → IsReady pairs.now times.items q → ⊥) }
{
    let mut times = no_times(alloc, pairs.len(), steps)?;
    while let Some(q) = ready(pairs, times.as_slice(), steps) {
        steps.tick();
        let time = next_time(alloc, pairs, times.as_slice(), q, steps)?;
        push_time(&mut times, q, time)?;
    }
    Ok(times)
}
