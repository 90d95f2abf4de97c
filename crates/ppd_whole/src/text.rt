// The lines of all processes.
ghost use Rattle.std.specs.Prelude.{◌≡◌, ◌<◌, ◌≤◌, ◌+◌, [], get_or, length, map, IfOk};
ghost use Rattle.std.specs.List.{flat_map, range_with_len, sum_by};
ghost use Rattle.ppd_whole.specs.Costs.{event_cost};
ghost use Rattle.ppd_whole_origins.specs.LinkedPasts.{IsLinked};
ghost use Rattle.ppd_whole.specs.Told.{told_at};

use crate::lines::put_process;
use crate::shares::share;
use ppd_ast::{Bytes, Memory, Seq, Steps};
use ppd_sem::Event;
use ppd_whole_origins::LinkedPast;
use rayon::prelude::*;
use std::alloc::{AllocError, Global};
use std::marker::Brand;
use std::sync::ledger::{Blank, Ledger};
use std::thread::Threads;

/// The lines of the events of process `p`, in the steps that `put_process` takes. `Memory` also for one that has no
/// 8-bit number.
fn lines_at<L: Ledger>(
    alloc: Global,
    linked: &LinkedPast,
    events: &[Vec<&Event>],
    p: usize,
    steps: &mut Steps<L>,
) -> Result<Bytes, Memory>
    requires linked { IsLinked linked.now }
    requires there { p < length events.now }
    ensures lines { IfOk result
        (λ lines. lines ≡ told_at linked.now.past.now (map (λ es. map (λ e. e.now) es.items) events.now) p) }
    ensures cost { steps.new
        ≤ steps.old
        + sum_by (event_cost linked.now.past.now) (get_or (map (λ es. map (λ e. e.now) es.items) events.now) p []) }
{
    let Ok(process) = u8::try_from(p) else {
        return Err(Memory);
    };
    let mut text = Vec::new(alloc);
    put_process(&mut text, alloc, linked, process, &events[p], steps)?;
    Ok(Seq::from_vec(text))
}

/// The same, with steps that nobody reads.
fn lines_from<L: Ledger>(
    alloc: Global,
    linked: &LinkedPast,
    events: &[Vec<&Event>],
    p: usize,
    blank: Blank,
) -> Result<Bytes, Memory>
    requires name { blank.name ≡ L.name }
    requires parts { blank.parts ≡ L.parts }
    requires some { 0 < blank.parts }
    requires linked { IsLinked linked.now }
    requires there { p < length events.now }
    ensures { IfOk result
        (λ lines. lines ≡ told_at linked.now.past.now (map (λ es. map (λ e. e.now) es.items) events.now) p) }
{
    let mut steps: Steps<L> = Steps::new(blank);
    lines_at(alloc, linked, events, p, &mut steps)
}

fn lines_of(
    alloc: Global,
    linked: &LinkedPast,
    events: &[Vec<&Event>],
    p: usize,
) -> Result<Bytes, Memory>
    requires linked { IsLinked linked.now }
    requires there { p < length events.now }
    ensures { IfOk result
        (λ lines. lines ≡ told_at linked.now.past.now (map (λ es. map (λ e. e.now) es.items) events.now) p) }
{
    lines_from::<Brand>(alloc, linked, events, p, Blank::new(1))
}

/// The lines of each process, each made in whatever thread.
pub(crate) fn lines_of_all(
    rt: &(impl Threads + Sync),
    alloc: Global,
    linked: &LinkedPast,
    events: &[Vec<&Event>],
    workers: u32,
) -> Result<Vec<Bytes>, Memory>
    requires linked { IsLinked linked.now }
    requires workers { 0 < workers }
    ensures { IfOk result
        (λ parts. parts.items
        ≡ map (told_at linked.now.past.now (map (λ es. map (λ e. e.now) es.items) events.now))
        (range_with_len 0 (length events.now))) }
{
    let all: Result<Result<Vec<Bytes>, Memory>, AllocError> = (0..events.len())
        .into_par_iter()
        .with_min_len(share(events.len(), workers))
        .map(
            |p: usize| -> Result<Bytes, Memory>
                requires { (p < length events.now) × IsLinked linked.now }
                ensures { IfOk result
                    (λ lines. lines
                    ≡ told_at linked.entry.now.past.now (map (λ es. map (λ e. e.now) es.items) events.entry.now) p) }
            { lines_of(alloc, linked, events, p) },
        )
        .collect(rt, alloc);
    match all {
        Ok(parts) => parts,
        Err(_) => Err(Memory),
    }
}

/// The parts, one after the other: each is dropped once it stands in the text.
pub(crate) fn joined(alloc: Global, parts: Vec<Bytes>) -> Result<Vec<u8>, Memory>
    ensures { IfOk result (λ text. text.items ≡ flat_map (λ part. part) parts.items) }
{
    let mut text = Seq::new(alloc);
    for part in parts {
        text.append(part.into_vec())?;
    }
    Ok(text.into_vec())
}
