// The items of all intervals, found in one thread, counted.
ghost use Rattle.std.specs.Prelude.{◌≡◌, ◌+◌, OnOk};
ghost use Rattle.ppd_flow_past.specs.Pasts.{IsPast};
ghost use Rattle.ppd_whole_origins.specs.IntervalCosts.{replays_cost};
ghost use Rattle.ppd_whole_origins.specs.Intervals.{all_intervals};
ghost use Rattle.ppd_whole.specs.Replays.{AreReplays};

use ppd_ast::{Seq, Steps};
use ppd_flow_past::Past;
use ppd_model::Item;
use ppd_whole_origins::{Job, WholeError, items_in, jobs_of};
use std::alloc::Global;
use std::sync::ledger::Ledger;

// The items of these intervals, each replayed once.
fn rows_in<L: Ledger>(
    alloc: Global,
    past: &Past,
    jobs: &[Job],
    steps: &mut Steps<L>,
) -> Result<Seq<Seq<Item>>, WholeError>
    requires { IsPast past.now }
    ensures is { AreReplays past.now jobs.now result }
    ensures cost { OnOk result (steps.new ≡ steps.old + replays_cost past.now jobs.now) }
{
    let mut rows = Seq::new(alloc);
    for job in jobs {
        match items_in(alloc, past, *job, steps) {
            Ok(items) => {
                if rows.push(items).is_err() {
                    return Err(WholeError::Memory);
                }
            }
            Err(error) => return Err(error),
        }
    }
    Ok(rows)
}

/// What `all_items` answers, found in one thread, in the own steps of all intervals.
pub fn all_items_in<L: Ledger>(
    alloc: Global,
    past: &Past,
    steps: &mut Steps<L>,
) -> Result<Seq<Seq<Item>>, WholeError>
    requires past { IsPast past.now }
    requires uncut { past.now.cut.now ≡ past.now.logs.now }
    ensures is { AreReplays past.now (all_intervals past.now) result }
    ensures cost { OnOk result (steps.new ≡ steps.old + replays_cost past.now (all_intervals past.now)) }
{
    let jobs = jobs_of(alloc, past)?;
    rows_in(alloc, past, &jobs, steps)
}
