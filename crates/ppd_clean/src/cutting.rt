// Logs that are cut off after the last wanted edge of each process.
ghost use Rattle.std.specs.Prelude.{◌≡◌, ◌≤◌, IfOk, false, is_some, length, slice_get};
ghost use Rattle.std.specs.Option.{option_map_or};
ghost use Rattle.ppd_model.specs.RecordedSets.{sync_in};
ghost use Rattle.law_clean.specs.Cuts.{cut as cut_of, cut_at as cut_at_of, cut_logs as cut_logs_of, stop as stop_of};
ghost use Rattle.ppd_ast.specs.declared.limits.TheConstants.{MOST_NAMED};
ghost use Rattle.ppd_clean.specs.ByOrder.{last_wanted as last_wanted_of};
ghost use Rattle.ppd_flow_past.specs.Pasts.{IsPast};

use crate::copies::copied;
use crate::wanted::last_wanted;
use ppd_ast::{Memory, Seq, Status};
use ppd_clean_past::{Asked, kept_entries};
use ppd_flow_past::{Past, ending};
use ppd_model::{Boxed, Entry, Logs};
use std::alloc::Global;

fn is_sync_at(entries: &[Entry], n: usize) -> bool
    ensures { result ≡ option_map_or (λ e. is_some (sync_in e)) (slice_get entries.now n) false }
{
    match entries.get(n) {
        Some(Entry::Sync { .. }) => true,
        _ => false,
    }
}

/// The end of a process that stops for its budget.
fn stop() -> Entry
    ensures { result ≡ stop_of }
{
    Entry::End {
        status: Status::Budget,
        rest: 0,
        reads: Boxed::new(),
        writes: Boxed::new(),
    }
}

/// The first `n` entries, with a unit that follows, and the end of a process that stops for its budget.
fn cut_at(alloc: Global, entries: &[Entry], n: usize) -> Result<Seq<Entry>, Memory>
    ensures { IfOk result (λ cut. cut ≡ cut_at_of entries.now n) }
{
    let mut cut = copied(alloc, kept_entries(entries, n))?;
    cut.push(stop())?;
    Ok(cut)
}

/// The log of a process whose last wanted edge is this one: through the synchronization that ends it, whole where none
/// does, and the start entries alone where no edge is wanted.
fn cut_log(alloc: Global, entries: &[Entry], last: Option<u32>) -> Result<Seq<Entry>, Memory>
    ensures { IfOk result (λ cut. cut ≡ cut_of last entries.now) }
{
    let Some(edge) = last else {
        return cut_at(alloc, entries, 1);
    };
    let end = ending(edge, entries);
    if is_sync_at(entries, end) {
        cut_at(alloc, entries, end + 1)
    } else {
        copied(alloc, entries)
    }
}

/// The logs of a past, cut for what is asked. `Memory` is want of memory, also for processes that have no 8-bit
/// numbers.
pub(crate) fn cut_logs(alloc: Global, past: &Past, asked: &Asked) -> Result<Logs, Memory>
    requires { IsPast past.now }
    ensures cut { IfOk result (λ cut. cut ≡ cut_logs_of (last_wanted_of past.now asked.now) past.now.logs.now) }
    ensures few { IfOk result (λ cut. length cut.lists ≤ MOST_NAMED) }
{
    let mut lists = Seq::new(alloc);
    for (number, entries) in past.logs.lists.as_slice().iter().enumerate() {
        let Ok(process) = u8::try_from(number) else {
            return Err(Memory);
        };
        let last = last_wanted(past, asked, process);
        let cut = cut_log(alloc, entries.as_slice(), last)?;
        lists.push(cut)?;
    }
    Ok(Logs { lists })
}
