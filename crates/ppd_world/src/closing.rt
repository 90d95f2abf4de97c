ghost use Rattle.std.specs.Option.{option_map_or};
ghost use Rattle.std.specs.Prelude.{◌≡◌, ◌-◌, ◌<◌, ◌∷◌, map, slice_get, vec_len, IfOk};
ghost use Rattle.std.specs.Option.{option_map_or};
ghost use Rattle.ppd_model.specs.Logs.{closed_log, end_of as end_of_proc, ends, ends_from};
ghost use Rattle.ppd_world.specs.Starts.{blocked_of};

use ppd_ast::{Memory, Program, Seq, Status};
use ppd_model::{Closed, Entry, Logging, Logs, ProcEnd};
use ppd_sem::{Proc, next_stmt};
use ppd_world_steps::push_end;
use std::alloc::Global;

/// The last statement of a body, and 0 past the table.
fn last_stmt(program: &Program, body: usize) -> u32
    ensures { result ≡ option_map_or (λ b. b.end - 1) (slice_get program.now.bodies body) 0 }
{
    match program.bodies.get(body) {
        Some(body) => body.end.saturating_sub(1),
        None => 0,
    }
}

/// How a process ended: one that is still running is blocked.
fn end_of(program: &Program, body: usize, proc: Proc) -> ProcEnd
    ensures { result ≡ end_of_proc (slice_get program.now.bodies body) proc }
{
    let stmt = match next_stmt(&proc) {
        Some(stmt) => stmt,
        None => last_stmt(program, body),
    };
    ProcEnd {
        status: proc.status.unwrap_or(Status::Blocked),
        stmt,
        steps: proc.steps,
        prints: proc.prints,
    }
}

/// The end that is written for a process that is still running.
fn blocked(proc: &Proc) -> Option<Status>
    ensures { result ≡ blocked_of proc.now.status }
{
    match proc.status {
        Some(_) => None,
        None => Some(Status::Blocked),
    }
}

/// A process's whole log.
fn close_log(alloc: Global, logging: &Logging) -> Result<Vec<Entry>, Memory>
    ensures { IfOk result (λ entries. entries.items ≡ ends logging.now (blocked_of logging.now.proc.status)) }
{
    let mut last = Vec::new(alloc);
    push_end(alloc, &mut last, logging, blocked(&logging.proc))?;
    Ok(last)
}

/// The entries of a process, and how it ended.
fn parts_of(program: &Program, body: usize, logging: Logging) -> (Seq<Entry>, ProcEnd)
    ensures entries { result.0 ≡ logging.entries }
    ensures end { result.1 ≡ end_of_proc (slice_get program.now.bodies body) logging.proc }
{
    (logging.entries, end_of(program, body, logging.proc))
}

/// A process's whole log, and how it ended. It is taken apart where nothing can fail any more.
fn close_one(
    alloc: Global,
    program: &Program,
    body: usize,
    mut logging: Logging,
) -> Result<(Seq<Entry>, ProcEnd), Memory>
    ensures log { IfOk result (λ r. r.0 ≡ closed_log logging) }
    ensures end { IfOk result (λ r. r.1 ≡ end_of_proc (slice_get program.now.bodies body) logging.proc) }
{
    let last = close_log(alloc, &logging)?;
    logging.entries.append(last)?;
    Ok(parts_of(program, body, logging))
}

/// Takes the first one off.
fn take_first(loggings: &mut Vec<Logging>) -> Logging
    requires { 0 < vec_len loggings.old }
    ensures { loggings.old.items ≡ result ∷ loggings.new.items }
{
    loggings.remove(0)
}

/// All logs, and how each process ended. `Memory` is want of memory.
pub(crate) fn close_all(
    alloc: Global,
    program: &Program,
    mut loggings: Vec<Logging>,
) -> Result<Closed, Memory>
    ensures logs { IfOk result (λ closed. closed.logs ≡ record { lists = map closed_log loggings.items }) }
    ensures ends { IfOk result (λ closed. closed.ends ≡ ends_from program.now program.now.functions loggings.items) }
{
    let mut lists = Seq::new(alloc);
    let mut ends = Seq::new(alloc);
    let mut body = program.functions as usize;
    while loggings.len() > 0 {
        let logging = take_first(&mut loggings);
        let (list, end) = close_one(alloc, program, body, logging)?;
        lists.push(list)?;
        ends.push(end)?;
        body += 1;
    }
    Ok(Closed {
        logs: Logs { lists },
        ends,
    })
}
