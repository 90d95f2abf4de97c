ghost use Rattle.std.specs.Prelude.{◌≡◌, ◌++◌, ◌∷◌, [], IfOk, OnOk};
ghost use Rattle.ppd_model.specs.declared.entry.Entry.TheVariants as entry;
ghost use Rattle.ppd_model.specs.Logs.{ends, passed_value as passed_of, status_of as status_of_need, syncs, units, block_entries};
ghost use Rattle.std.specs.Option.{option_map_or};
ghost use Rattle.ppd_model.specs.Marks.{closed, opened};
ghost use Rattle.ppd_model.specs.Story.{unit_started as unit_started_of, values_of_unit};
ghost use Rattle.ppd_model.specs.Synchronizations.{sync_of};
ghost use Rattle.ppd_sem.specs.Runs.{IsRunnable, IsRunning};

use crate::code::Code;
use ppd_ast::{Cells, Memory, Nums, Plan, Status, SyncKind};
use ppd_model::{
    Boxed, BoxedCells, BoxedNums, Entry, Logging, Taken, closed_block, unit_cells, unit_started,
    values_at,
};
use ppd_sem::{Answer, Need, Proc, call_values, local_cells, prelog_cells};
use std::alloc::Global;

fn push(entries: &mut Vec<Entry>, entry: Entry) -> Result<(), Memory>
    ensures { OnOk result (entries.new.items ≡ entries.old.items ++ entry ∷ []) }
{
    entries.push(entry)?;
    Ok(())
}

fn copy_cells(alloc: Global, cells: &Cells) -> Result<BoxedCells, Memory>
    ensures { IfOk result (λ copy. copy ≡ cells.now) }
{
    let copy = cells.clone()?;
    Boxed::from_seq(alloc, copy)
}

/// The values of a unit's cells.
pub fn unit_values(
    alloc: Global,
    plan: &Plan,
    shared: &[i64],
    unit: u16,
) -> Result<BoxedNums, Memory>
    ensures { IfOk result (λ values. values ≡ values_of_unit plan.now shared.now unit) }
{
    let values = values_at(alloc, shared, unit_cells(plan, unit))?;
    Boxed::from_seq(alloc, values)
}

/// The prelog of a block with these values.
fn push_prelog(
    alloc: Global,
    entries: &mut Vec<Entry>,
    block: u16,
    values: Nums,
) -> Result<(), Memory>
    ensures { OnOk result (entries.new.items ≡ entries.old.items ++ Entry.Prelog block values ∷ []) }
{
    let values = Boxed::from_seq(alloc, values)?;
    push(entries, Entry::Prelog { block, values })
}

/// The prelog of the block that a step of this need enters.
pub fn push_opened(
    entries: &mut Vec<Entry>,
    code: &Code,
    proc: &Proc,
    need: Need,
) -> Result<(), Memory>
    requires program { IsRunnable code.now.program.now }
    requires proc { IsRunning code.now.program.now proc.now }
    ensures { OnOk result
        (entries.new.items
        ≡ entries.old.items
        ++ block_entries entry.Prelog (opened code.now.program.now code.now.plan.now proc.now need)) }
{
    match need {
        Need::Enter { block, .. } => {
            let values = values_at(
                code.alloc,
                local_cells(proc),
                prelog_cells(code.plan, block),
            )?;
            push_prelog(code.alloc, entries, block, values)
        }
        Need::Invoke {
            block: Some(block),
            ..
        } => {
            let values = call_values(code.alloc, code.program, proc)?;
            push_prelog(code.alloc, entries, block, values)
        }
        _ => Ok(()),
    }
}

/// The postlog of the block that a step of this need leaves.
pub fn push_closed(
    entries: &mut Vec<Entry>,
    code: &Code,
    proc: &Proc,
    need: Need,
) -> Result<(), Memory>
    requires program { IsRunnable code.now.program.now }
    requires proc { IsRunning code.now.program.now proc.now }
    ensures { OnOk result
        (entries.new.items
        ≡ entries.old.items
        ++ block_entries entry.Postlog (closed code.now.program.now code.now.plan.now proc.now need)) }
{
    match closed_block(code.alloc, code.program, code.plan, proc, need)? {
        Some((block, values)) => {
            let values = Boxed::from_seq(code.alloc, values)?;
            push(entries, Entry::Postlog { block, values })
        }
        None => Ok(()),
    }
}

/// What a synchronization passes, and 0 for a semaphore and a completion.
fn passed(need: Need, answer: Answer) -> i64
    ensures { result ≡ passed_of need answer }
{
    match need {
        Need::Send { value, .. } | Need::Offer { value, .. } => value,
        Need::Recv { .. } => answer.value_given(),
        _ => 0,
    }
}

/// The entry of a synchronization that takes this number.
pub fn push_sync(
    alloc: Global,
    entries: &mut Vec<Entry>,
    logging: &Logging,
    taken: Taken,
) -> Result<(), Memory>
    ensures { OnOk result
        (entries.new.items ≡ entries.old.items ++ syncs logging.now taken (sync_of taken)) }
{
    let (kind, object) = match taken.need {
        Need::P { sem, .. } => (SyncKind::P, sem),
        Need::V { sem, .. } => (SyncKind::V, sem),
        Need::Send { chan, .. } | Need::Offer { chan, .. } => (SyncKind::Send, chan),
        Need::Done { chan, .. } => (SyncKind::Done, chan),
        Need::Recv { chan, .. } => (SyncKind::Recv, chan),
        _ => return Ok(()),
    };
    let Some(number) = taken.number else {
        return Ok(());
    };
    let value = passed(taken.need, taken.answer);
    let reads = copy_cells(alloc, &logging.reads)?;
    let writes = copy_cells(alloc, &logging.writes)?;
    push(
        entries,
        Entry::Sync {
            kind,
            object,
            number,
            value,
            reads,
            writes,
        },
    )
}

/// The unit that starts after a step of this need, with its values.
pub fn push_unit(
    entries: &mut Vec<Entry>,
    code: &Code,
    shared: &[i64],
    need: Need,
) -> Result<(), Memory>
    ensures { OnOk result
        (entries.new.items ≡ entries.old.items
        ++ units (unit_started_of need)
        (option_map_or (values_of_unit code.now.plan.now shared.now) (unit_started_of need) [])) }
{
    match unit_started(need) {
        Some(unit) => {
            let values = unit_values(code.alloc, code.plan, shared, unit)?;
            push(entries, Entry::Unit { unit, values })
        }
        None => Ok(()),
    }
}

/// The status of a step that ends its process.
pub fn status_of(need: Need) -> Option<Status>
    ensures { result ≡ status_of_need need }
{
    match need {
        Need::Trap(trap) => Some(Status::Trap(trap)),
        Need::Budget => Some(Status::Budget),
        Need::End { .. } => Some(Status::Ended),
        _ => None,
    }
}

/// The end of the process, where there is a status.
pub fn push_end(
    alloc: Global,
    entries: &mut Vec<Entry>,
    logging: &Logging,
    status: Option<Status>,
) -> Result<(), Memory>
    ensures { OnOk result (entries.new.items ≡ entries.old.items ++ ends logging.now status) }
{
    let Some(status) = status else {
        return Ok(());
    };
    let reads = copy_cells(alloc, &logging.reads)?;
    let writes = copy_cells(alloc, &logging.writes)?;
    push(
        entries,
        Entry::End {
            status,
            rest: logging.rest,
            reads,
            writes,
        },
    )
}
