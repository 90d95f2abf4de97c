// All intervals, by process and number.
ghost use Rattle.std.specs.Prelude.{◌≡◌, ◌++◌, map, IfOk, OnOk};
ghost use Rattle.std.specs.List.{range_with_len};
ghost use Rattle.ppd_flow_past.specs.Pasts.{IsPast};
ghost use Rattle.ppd_whole_origins.specs.Intervals.{all_intervals};

use ppd_ast::Memory;
use ppd_flow_past::{Past, count_of};
use std::alloc::Global;

/// An interval by its process and its number.
pub type Job = (u8, u32);

fn add_jobs(jobs: &mut Vec<Job>, process: u8, count: u32) -> Result<(), Memory>
    ensures { OnOk result
        (jobs.new.items ≡ jobs.old.items ++ map (λ k. (process, k)) (range_with_len 0 count)) }
{
    for interval in 0..count {
        jobs.push((process, interval))?;
    }
    Ok(())
}

/// The intervals of all processes. `Memory` is want of memory, also for a process that has no 8-bit number.
pub fn jobs_of(alloc: Global, past: &Past) -> Result<Vec<Job>, Memory>
    requires past { IsPast past.now }
    requires uncut { past.now.cut.now ≡ past.now.logs.now }
    ensures { IfOk result (λ jobs. jobs.items ≡ all_intervals past.now) }
{
    let mut jobs = Vec::new(alloc);
    for p in 0..past.logs.lists.len() {
        let Ok(process) = u8::try_from(p) else {
            return Err(Memory);
        };
        add_jobs(&mut jobs, process, count_of(past, process))?;
    }
    Ok(jobs)
}
