// The events of all processes.
ghost use Rattle.std.specs.Prelude.{◌≡◌, ◌<◌, ◌^◌, ℕ, [], IsTrue, drop, get_or, length, map, take, IfOk};
ghost use Rattle.std.specs.List.{flat_map};
ghost use Rattle.law_flow.specs.Joined.{events_in};
ghost use Rattle.ppd_flow_past.specs.Pasts.{IsPast};
ghost use Rattle.ppd_flow.specs.SharedCells.{seens_in};

use crate::shares::share;
use ppd_ast::{Memory, Seq};
use ppd_flow_past::{Past, count_of};
use ppd_model::Item;
use ppd_sem::Event;
use ppd_whole_link::events_of;
use rayon::prelude::*;
use std::alloc::{AllocError, Global};
use std::thread::Threads;

/// The first rows, at most so many.
fn first_rows(rows: &[Seq<Item>], count: usize) -> &[Seq<Item>]
    ensures { result.now ≡ take count rows.now }
{
    if count < rows.len() {
        &rows[..count]
    } else {
        rows
    }
}

/// The rows after the first, so many.
fn later_rows(rows: &[Seq<Item>], count: usize) -> &[Seq<Item>]
    ensures { result.now ≡ drop count rows.now }
{
    if count < rows.len() {
        &rows[count..]
    } else {
        &[]
    }
}

/// The rows of each process among those of all.
fn rows_by_process<'a>(
    alloc: Global,
    past: &Past,
    rows: &'a [Seq<Item>],
) -> Result<Vec<&'a [Seq<Item>]>, Memory>
    requires past { IsPast past.now }
    requires uncut { past.now.cut.now ≡ past.now.logs.now }
    requires rows { rows.now ≡ flat_map (λ x. x.items) (seens_in past.now) }
    ensures { IfOk result (λ own. map (λ r. r.now) own.items ≡ map (λ x. x.items) (seens_in past.now)) }
{
    let mut all = Vec::new(alloc);
    let mut left = rows;
    for p in 0..past.logs.lists.len() {
        let Ok(process) = u8::try_from(p) else {
            return Err(Memory);
        };
        let count = count_of(past, process) as usize;
        all.push(first_rows(left, count))?;
        left = later_rows(left, count);
    }
    Ok(all)
}

/// The events of process `p`, joined from the items of its intervals.
fn events_at<'a>(
    alloc: Global,
    past: &Past,
    own: &[&'a [Seq<Item>]],
    p: usize,
) -> Result<Vec<&'a Event>, Memory>
    requires own { map (λ r. r.now) own.now ≡ map (λ x. x.items) (seens_in past.now) }
    requires there { p < length own.now }
    ensures { IfOk result (λ events. map (λ e. e.now) events.items ≡ get_or (map events_in (seens_in past.now)) p []) }
{
    let _past = past;
    events_of(alloc, own[p])
}

/// The events of each process, joined in one thread from the items of all intervals.
pub fn events_in_turn<'a>(
    alloc: Global,
    past: &Past,
    rows: &'a [Seq<Item>],
) -> Result<Vec<Vec<&'a Event>>, Memory>
    requires past { IsPast past.now }
    requires uncut { past.now.cut.now ≡ past.now.logs.now }
    requires rows { rows.now ≡ flat_map (λ x. x.items) (seens_in past.now) }
    ensures { IfOk result
        (λ all. map (λ es. map (λ e. e.now) es.items) all.items ≡ map events_in (seens_in past.now)) }
{
    let own = rows_by_process(alloc, past, rows)?;
    let mut all = Vec::new(alloc);
    for p in 0..own.len() {
        let events = events_at(alloc, past, &own, p)?;
        all.push(events)?;
    }
    Ok(all)
}

fn events_by<'a>(
    rt: &(impl Threads + Sync),
    alloc: Global,
    past: &Past,
    own: &[&'a [Seq<Item>]],
    workers: u32,
) -> Result<Vec<Vec<&'a Event>>, Memory>
    requires own { map (λ r. r.now) own.now ≡ map (λ x. x.items) (seens_in past.now) }
    requires workers { 0 < workers }
    ensures { IfOk result
        (λ all. map (λ es. map (λ e. e.now) es.items) all.items ≡ map events_in (seens_in past.now)) }
{
    let all: Result<Result<Vec<Vec<&'a Event>>, Memory>, AllocError> = (0..own.len())
        .into_par_iter()
        .with_min_len(share(own.len(), workers))
        .map(
            |p: usize| -> Result<Vec<&Event>, Memory>
                requires { (p < length own.now)
                    × (map (λ r. r.now) own.now ≡ map (λ x. x.items) (seens_in past.now)) }
                ensures { IfOk result
                    (λ events. map (λ e. e.now) events.items
                    ≡ get_or (map events_in (seens_in past.entry.now)) p []) }
            { events_at(alloc, past, own, p) },
        )
        .collect(rt, alloc);
    match all {
        Ok(events) => events,
        Err(_) => Err(Memory),
    }
}

/// The events of each process, joined from the items of all intervals, each process's in whatever thread.
pub fn events_of_all<'a>(
    rt: &(impl Threads + Sync),
    alloc: Global,
    past: &Past,
    rows: &'a [Seq<Item>],
    workers: u32,
) -> Result<Vec<Vec<&'a Event>>, Memory>
    requires past { IsPast past.now }
    requires uncut { past.now.cut.now ≡ past.now.logs.now }
    requires rows { rows.now ≡ flat_map (λ x. x.items) (seens_in past.now) }
    requires workers { 0 < workers }
    ensures { IfOk result
        (λ all. map (λ es. map (λ e. e.now) es.items) all.items ≡ map events_in (seens_in past.now)) }
{
    let own = rows_by_process(alloc, past, rows)?;
    events_by(rt, alloc, past, &own, workers)
}

/// Whether the events of each process have 32-bit numbers.
pub fn are_few(events: &[Vec<&Event>]) -> bool
    ensures { IsTrue result
        → (q : ℕ) → length (get_or (map (λ es. map (λ e. e.now) es.items) events.now) q []) < 2 ^ 32 }
{
    for own in events {
        if own.len() >= 4294967296 {
            return false;
        }
    }
    true
}
