ghost use Rattle.std.specs.Prelude.{◌≡◌, IfOk};
ghost use Rattle.ppd_model.specs.Logs.{entries_of as entries_of_step};
ghost use Rattle.ppd_sem.specs.Runs.{IsRunnable, IsRunning};
ghost use Rattle.ppd_world_steps.specs.Entries.{moment_with};

use crate::appending::{push_closed, push_end, push_opened, push_sync, push_unit, status_of};
use crate::code::Code;
use ppd_ast::Memory;
use ppd_model::{Entry, Logging, Taken};

/// The entries that this step writes. `Memory` is want of memory.
pub fn entries_of(
    code: &Code,
    logging: &Logging,
    shared: &[i64],
    taken: Taken,
) -> Result<Vec<Entry>, Memory>
    requires program { IsRunnable code.now.program.now }
    requires proc { IsRunning code.now.program.now logging.now.proc }
    ensures { IfOk result
        (λ entries. entries.items ≡ entries_of_step code.now.program.now code.now.plan.now logging.now
        (moment_with code.now.plan.now shared.now taken)) }
{
    let mut entries = Vec::new(code.alloc);
    push_opened(&mut entries, code, &logging.proc, taken.need)?;
    push_sync(code.alloc, &mut entries, logging, taken)?;
    push_closed(&mut entries, code, &logging.proc, taken.need)?;
    push_unit(&mut entries, code, shared, taken.need)?;
    push_end(code.alloc, &mut entries, logging, status_of(taken.need))?;
    Ok(entries)
}
