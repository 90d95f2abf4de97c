ghost use Rattle.std.specs.Prelude.{◌≡◌, is_some, option_map, IfOk};
ghost use Rattle.ppd_model.specs.declared.wanted.Wanted.TheVariants as WantedOf;
ghost use Rattle.ppd_model.specs.Fits.{wanted_of as wanted_of_need};
ghost use Rattle.ppd_model.specs.Marks.{closed};
ghost use Rattle.ppd_model.specs.Synchronizations.{kind_of_sync};
ghost use Rattle.ppd_sem.specs.Runs.{IsRunnable, IsRunning};

use ppd_ast::{Memory, Plan, Program, Status, SyncKind};
use ppd_model::{Wanted, closed_block};
use ppd_sem::{Need, Proc};
use std::alloc::Global;

/// The postlog of the block that the step leaves, if it leaves one.
fn postlog_of(
    alloc: Global,
    program: &Program,
    plan: &Plan,
    proc: &Proc,
    need: Need,
) -> Result<Option<Wanted>, Memory>
    requires program { IsRunnable program.now }
    requires proc { IsRunning program.now proc.now }
    ensures { IfOk result (λ wanted. wanted
        ≡ option_map (λ m. WantedOf.Postlog m.values) (closed program.now plan.now proc.now need)) }
{
    match closed_block(alloc, program, plan, proc, need)? {
        Some((_, values)) => Ok(Some(Wanted::Postlog(values))),
        None => Ok(None),
    }
}

/// What a step of this need needs the next piece to be, if it needs one. `Memory` is want of memory.
pub(crate) fn wanted_of(
    alloc: Global,
    program: &Program,
    plan: &Plan,
    proc: &Proc,
    need: Need,
) -> Result<Option<Wanted>, Memory>
    requires program { IsRunnable program.now }
    requires proc { IsRunning program.now proc.now }
    ensures { IfOk result (λ wanted. wanted ≡ wanted_of_need program.now plan.now proc.now need) }
{
    let wanted = match need {
        Need::P { sem, .. } => Wanted::Sync(SyncKind::P, sem, 0),
        Need::V { sem, .. } => Wanted::Sync(SyncKind::V, sem, 0),
        Need::Send { chan, value, .. } => Wanted::Sync(SyncKind::Send, chan, value),
        Need::Offer { chan, value } => Wanted::Sync(SyncKind::Send, chan, value),
        Need::Done { chan, .. } => Wanted::Sync(SyncKind::Done, chan, 0),
        Need::Recv { chan, .. } => Wanted::Sync(SyncKind::Recv, chan, 0),
        Need::Enter { block, .. } => Wanted::Nested(block),
        Need::Invoke {
            block: Some(block),
            ..
        } => Wanted::Nested(block),
        Need::Trap(trap) => Wanted::End(Status::Trap(trap)),
        _ => return postlog_of(alloc, program, plan, proc, need),
    };
    Ok(Some(wanted))
}

/// Whether a step of this need is a synchronization.
pub(crate) fn is_sync(need: Need) -> bool
    ensures { result ≡ is_some (kind_of_sync need) }
{
    matches!(
        need,
        Need::P { .. }
            | Need::V { .. }
            | Need::Send { .. }
            | Need::Offer { .. }
            | Need::Done { .. }
            | Need::Recv { .. }
    )
}
