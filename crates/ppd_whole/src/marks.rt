// What the events of all processes leave.
ghost use Rattle.std.specs.Prelude.{◌≡◌, ◌<◌, [], get_or, length, map, IfOk};
ghost use Rattle.ppd_whole_link.specs.Marks.{marks_after};

use crate::shares::share;
use ppd_ast::Memory;
use ppd_sem::Event;
use ppd_whole_link::{Marks, marks_of};
use rayon::prelude::*;
use std::alloc::{AllocError, Global};
use std::thread::Threads;

/// What the events of process `p` leave.
fn marks_at(alloc: Global, events: &[Vec<&Event>], p: usize) -> Result<Marks, Memory>
    requires { p < length events.now }
    ensures { IfOk result
        (λ marks. marks ≡ marks_after (get_or (map (λ es. map (λ e. e.now) es.items) events.now) p [])) }
{
    marks_of(alloc, &events[p])
}

/// What the events of each process leave, found in one thread.
pub fn marks_in_turn(alloc: Global, events: &[Vec<&Event>]) -> Result<Vec<Marks>, Memory>
    ensures { IfOk result
        (λ marks. marks.items ≡ map (λ es. marks_after (map (λ e. e.now) es.items)) events.now) }
{
    let mut all = Vec::new(alloc);
    for own in events {
        let marks = marks_of(alloc, own)?;
        all.push(marks)?;
    }
    Ok(all)
}

/// What the events of each process leave, each found in whatever thread.
pub fn marks_of_all(
    rt: &(impl Threads + Sync),
    alloc: Global,
    events: &[Vec<&Event>],
    workers: u32,
) -> Result<Vec<Marks>, Memory>
    requires { 0 < workers }
    ensures { IfOk result
        (λ marks. marks.items ≡ map (λ es. marks_after (map (λ e. e.now) es.items)) events.now) }
{
    let all: Result<Result<Vec<Marks>, Memory>, AllocError> = (0..events.len())
        .into_par_iter()
        .with_min_len(share(events.len(), workers))
        .map(
            |p: usize| -> Result<Marks, Memory>
                requires { p < length events.now }
                ensures { IfOk result
                    (λ marks. marks
                    ≡ marks_after (get_or (map (λ es. map (λ e. e.now) es.items) events.entry.now) p [])) }
            { marks_at(alloc, events, p) },
        )
        .collect(rt, alloc);
    match all {
        Ok(marks) => marks,
        Err(_) => Err(Memory),
    }
}
