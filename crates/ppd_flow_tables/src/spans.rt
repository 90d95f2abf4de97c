// In which edge each interval of a process begins, and how many synchronizations it has.
ghost use Rattle.std.specs.Prelude.{◌≡◌, ℕ, IfOk, List, get_or, slice_get, []};
ghost use Rattle.ppd_model.specs.declared.entry.Entry.{Entry};
ghost use Rattle.ppd_graph.specs.Ends.{first_edge as first_edge_of, syncs_before, syncs_inside as syncs_inside_of};
ghost use Rattle.ppd_flow_past.specs.Pasts.{IsPast};
ghost use Rattle.ppd_flow_tables.specs.Counts.{AreCounts};
ghost use Rattle.ppd_model.specs.Extents.{extents};

use crate::numbers::number_at;
use ppd_ast::{Ids, Memory, Seq};
use ppd_flow_past::Past;
use std::alloc::Global;

/// Of each interval of a process the edge in which it begins, and how many synchronizations it has, with those of the
/// intervals inside it.
#[derive(Drop)]
pub(crate) struct Spans {
    pub(crate) first: Ids,
    pub(crate) inside: Ids,
}

/// How many synchronizations stand before entry `n`.
fn count_at(counts: &[u32], n: u32) -> u32
    ensures { (entries : List Entry) → AreCounts entries counts.now → result ≡ syncs_before entries n }
{
    let last = counts.len().saturating_sub(1);
    if (n as usize) < last {
        number_at(counts, n as usize)
    } else {
        number_at(counts, last)
    }
}

fn first_edge(past: &Past, process: u8, interval: u32, counts: &[u32]) -> u32
    requires past { IsPast past.now }
    requires counts { AreCounts (get_or past.now.logs.now.lists process []) counts.now }
    ensures { result ≡ first_edge_of (get_or past.now.logs.now.lists process []) interval }
{
    match past.index.interval(process, interval) {
        Some(found) => count_at(counts, found.first),
        None => 0,
    }
}

fn syncs_inside(past: &Past, process: u8, interval: u32, counts: &[u32]) -> u32
    requires past { IsPast past.now }
    requires counts { AreCounts (get_or past.now.logs.now.lists process []) counts.now }
    ensures { result
        ≡ syncs_inside_of (get_or past.now.logs.now.lists process [])
        (slice_get (extents (get_or past.now.logs.now.lists process [])) interval) }
{
    match past.index.interval(process, interval) {
        Some(found) => {
            count_at(counts, found.last).saturating_sub(count_at(counts, found.first))
        }
        None => 0,
    }
}

/// The edge in which each interval begins.
fn first_edges(alloc: Global, past: &Past, process: u8, counts: &[u32]) -> Result<Ids, Memory>
    requires past { IsPast past.now }
    requires counts { AreCounts (get_or past.now.logs.now.lists process []) counts.now }
    ensures { IfOk result (λ first. (k : ℕ) → get_or first k 0
        ≡ first_edge_of (get_or past.now.logs.now.lists process []) k) }
{
    let mut first = Seq::new(alloc);
    for interval in 0..past.index.count(process) {
        first.push(first_edge(past, process, interval, counts))?;
    }
    Ok(first)
}

/// How many synchronizations each interval has, with those of the intervals inside it.
fn inner_syncs(alloc: Global, past: &Past, process: u8, counts: &[u32]) -> Result<Ids, Memory>
    requires past { IsPast past.now }
    requires counts { AreCounts (get_or past.now.logs.now.lists process []) counts.now }
    ensures { IfOk result (λ inside. (k : ℕ) → get_or inside k 0
        ≡ syncs_inside_of (get_or past.now.logs.now.lists process [])
        (slice_get (extents (get_or past.now.logs.now.lists process [])) k)) }
{
    let mut inside = Seq::new(alloc);
    for interval in 0..past.index.count(process) {
        inside.push(syncs_inside(past, process, interval, counts))?;
    }
    Ok(inside)
}

pub(crate) fn spans_of(
    alloc: Global,
    past: &Past,
    process: u8,
    counts: &[u32],
) -> Result<Spans, Memory>
    requires past { IsPast past.now }
    requires counts { AreCounts (get_or past.now.logs.now.lists process []) counts.now }
    ensures first { IfOk result (λ spans. (k : ℕ) → get_or spans.first k 0
        ≡ first_edge_of (get_or past.now.logs.now.lists process []) k) }
    ensures inside { IfOk result (λ spans. (k : ℕ) → get_or spans.inside k 0
        ≡ syncs_inside_of (get_or past.now.logs.now.lists process [])
        (slice_get (extents (get_or past.now.logs.now.lists process [])) k)) }
{
    let first = first_edges(alloc, past, process, counts)?;
    let inside = inner_syncs(alloc, past, process, counts)?;
    Ok(Spans { first, inside })
}
