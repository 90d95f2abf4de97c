ghost use Rattle.std.specs.Prelude.{◌≡◌, IfOk, slice_get, slice_set};
ghost use Rattle.std.specs.List.{All};
ghost use Rattle.ppd_sem.specs.Process.{need_of};
ghost use Rattle.ppd_sem.specs.Runs.{IsNumbered, IsRunnable};
ghost use Rattle.ppd_world.specs.Parts.{IsSmallLogging, need_of_logging, needs_of, or_stopped};

use ppd_ast::Memory;
use ppd_model::Logging;
use ppd_sem::{Need, look};
use ppd_world_steps::Code;
use std::alloc::Global;

/// What the process at this place needs, as it is kept.
pub(crate) fn need_at(needs: &[Need], place: usize) -> Need
    ensures { result ≡ or_stopped (slice_get needs.now place) }
{
    match needs.get(place) {
        Some(need) => *need,
        None => Need::Stopped,
    }
}

/// Keeps what the process at this place needs.
pub(crate) fn set_need(needs: &mut Vec<Need>, place: usize, need: Need)
    ensures { needs.new.items ≡ slice_set needs.old.items place need }
{
    if place < needs.len() {
        needs[place] = need;
    }
}

/// Looks at what a process needs.
fn look_of(code: &Code, logging: &Logging) -> Need
    requires program { IsRunnable code.now.program.now }
    requires plan { IsNumbered code.now.plan.now }
    requires logging { IsSmallLogging code.now.program.now logging.now }
    ensures { result ≡ need_of code.now.program.now code.now.plan.now logging.now.proc }
{
    look(code.program, code.plan, &logging.proc)
}

/// Looks at what the process at this place needs.
pub(crate) fn look_at(code: &Code, loggings: &[Logging], place: usize) -> Need
    requires program { IsRunnable code.now.program.now }
    requires plan { IsNumbered code.now.plan.now }
    requires loggings { All (IsSmallLogging code.now.program.now) loggings.now }
    ensures { result ≡ need_of_logging code.now.program.now code.now.plan.now (slice_get loggings.now place) }
{
    match loggings.get(place) {
        Some(logging) => look_of(code, logging),
        None => Need::Stopped,
    }
}

/// What each process needs. `Memory` is want of memory.
pub(crate) fn start_needs(
    alloc: Global,
    code: &Code,
    loggings: &[Logging],
) -> Result<Vec<Need>, Memory>
    requires program { IsRunnable code.now.program.now }
    requires plan { IsNumbered code.now.plan.now }
    requires loggings { All (IsSmallLogging code.now.program.now) loggings.now }
    ensures { IfOk result (λ needs. needs.items ≡ needs_of code.now.program.now code.now.plan.now loggings.now) }
{
    let mut needs = Vec::new(alloc);
    for logging in loggings {
        needs.push(look_of(code, logging))?;
    }
    Ok(needs)
}
