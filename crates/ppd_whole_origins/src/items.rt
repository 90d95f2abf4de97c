ghost use Rattle.std.specs.Prelude.{◌≡◌, ◌+◌, [], ◌∷◌, OnOk};
ghost use Rattle.ppd_flow_past.specs.Pasts.{IsPast};
ghost use Rattle.ppd_whole_origins.specs.IntervalCosts.{replays_cost};
ghost use Rattle.ppd_whole_origins.specs.Replays.{IsReplay};

use crate::jobs::Job;
use crate::whole_error::WholeError;
use ppd_ast::{Seq, Steps};
use ppd_flow_past::{FlowError, Past, replayed};
use ppd_model::Item;
use std::alloc::Global;
use std::sync::ledger::Ledger;

/// The items of an interval, which is replayed once: the counter rises by the steps that the interval itself takes.
/// `Diverged`: its replay fails at this entry. `Memory` is want of memory.
pub fn items_in<L: Ledger>(
    alloc: Global,
    past: &Past,
    job: Job,
    steps: &mut Steps<L>,
) -> Result<Seq<Item>, WholeError>
    requires { IsPast past.now }
    ensures is { IsReplay past.now job result }
    ensures cost { OnOk result (steps.new ≡ steps.old + replays_cost past.now (job ∷ [])) }
{
    match replayed(alloc, past, job.0, job.1, steps) {
        Ok(items) => Ok(items),
        Err(FlowError::Diverged { process, entry }) => Err(WholeError::Diverged { process, entry }),
        Err(_) => Err(WholeError::Memory),
    }
}
