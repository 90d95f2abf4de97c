// The items of all intervals, by replays that are split among workers.
ghost use Rattle.std.specs.Prelude.{◌≡◌, ◌<◌, map, Ok, IfErr, IfOk};
ghost use Rattle.std.specs.List.{AllZip};
ghost use Rattle.ppd_flow_past.specs.Pasts.{IsPast};
ghost use Rattle.ppd_whole_origins.specs.Intervals.{all_intervals};
ghost use Rattle.ppd_whole_origins.specs.Replays.{IsReplay};
ghost use Rattle.ppd_whole.specs.Replays.{AreReplays, StopsAt};

use crate::shares::share;
use ppd_ast::{Memory, Seq, Steps};
use ppd_flow_past::Past;
use ppd_model::Item;
use ppd_whole_origins::{Job, WholeError, items_in, jobs_of};
use rayon::prelude::*;
use std::alloc::{AllocError, Global};
use std::marker::Brand;
use std::sync::ledger::{Blank, Ledger};
use std::thread::Threads;

// The items of an interval, with steps that nobody reads.
fn items_from<L: Ledger>(
    alloc: Global,
    past: &Past,
    job: Job,
    blank: Blank,
) -> Result<Seq<Item>, WholeError>
    requires name { blank.name ≡ L.name }
    requires parts { blank.parts ≡ L.parts }
    requires some { 0 < blank.parts }
    requires past { IsPast past.now }
    ensures { IsReplay past.now job result }
{
    let mut steps: Steps<L> = Steps::new(blank);
    items_in(alloc, past, job, &mut steps)
}

fn items_of(alloc: Global, past: &Past, job: Job) -> Result<Seq<Item>, WholeError>
    requires { IsPast past.now }
    ensures { IsReplay past.now job result }
{
    items_from::<Brand>(alloc, past, job, Blank::new(1))
}

type Found = Vec<Result<Seq<Item>, WholeError>>;

// What the replay of each of these intervals gives, found in whatever thread.
fn replays(
    rt: &(impl Threads + Sync),
    alloc: Global,
    past: &Past,
    jobs: &[Job],
    workers: u32,
) -> Result<Found, Memory>
    requires past { IsPast past.now }
    requires workers { 0 < workers }
    ensures { IfOk result (λ found. AllZip (IsReplay past.now) jobs.now found.items) }
{
    let found: Result<Found, AllocError> = jobs
        .par_iter()
        .with_min_len(share(jobs.len(), workers))
        .map(
            |job: &Job| -> Result<Seq<Item>, WholeError>
                requires { IsPast past.now }
                ensures { IsReplay past.entry.now job.now result }
            { items_of(alloc, past, *job) },
        )
        .collect(rt, alloc);
    match found {
        Ok(found) => Ok(found),
        Err(_) => Err(Memory),
    }
}

// The items, where no replay failed, else the first failure.
fn rows_of(alloc: Global, found: Found) -> Result<Seq<Seq<Item>>, WholeError>
    ensures ok { IfOk result (λ rows. found.items ≡ map Ok rows) }
    ensures err { IfErr result (StopsAt found.items) }
{
    let mut rows = Seq::new(alloc);
    for one in found {
        match one {
            Ok(items) => {
                if rows.push(items).is_err() {
                    return Err(WholeError::Memory);
                }
            }
            Err(error) => return Err(error),
        }
    }
    Ok(rows)
}

// The same of the replays of these intervals.
fn gathered(
    alloc: Global,
    past: &Past,
    jobs: &[Job],
    found: Found,
) -> Result<Seq<Seq<Item>>, WholeError>
    requires { AllZip (IsReplay past.now) jobs.now found.items }
    ensures { AreReplays past.now jobs.now result }
{
    let _past = past;
    let _jobs = jobs;
    rows_of(alloc, found)
}

/// The items of all intervals, by process and number, found by so many workers. `Diverged` is the first interval of
/// which the replay fails; `Memory` is want of memory, also for a process that has no 8-bit number.
pub fn all_items(
    rt: &(impl Threads + Sync),
    alloc: Global,
    past: &Past,
    workers: u32,
) -> Result<Seq<Seq<Item>>, WholeError>
    requires past { IsPast past.now }
    requires uncut { past.now.cut.now ≡ past.now.logs.now }
    requires workers { 0 < workers }
    ensures { AreReplays past.now (all_intervals past.now) result }
{
    let jobs = jobs_of(alloc, past)?;
    let found = replays(rt, alloc, past, &jobs, workers)?;
    gathered(alloc, past, &jobs, found)
}

/// Drops the items, in as many threads as found them.
pub fn drop_all(rt: &(impl Threads + Sync), rows: Seq<Seq<Item>>, workers: u32)
    requires { 0 < workers }
{
    let count = rows.len();
    rows.into_vec()
        .into_par_iter()
        .with_min_len(share(count, workers))
        .for_each(rt, |_items: Seq<Item>| {});
}
