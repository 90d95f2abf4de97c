ghost use Rattle.std.specs.Prelude.{◌≡◌, ◌+◌, ◌≤◌, ◌^◌, [], ◌∷◌, IfOk, OnErr, OnOk, Ok, option_copied};
ghost use Rattle.ppd_flow_past.specs.ByReplays.{IsFoundBy, IsReplayed};
ghost use Rattle.ppd_flow_past.specs.Pasts.{IsPast, items_kept};
ghost use Rattle.ppd_flow_past.specs.SeenBy.{items_in, steps_in};

use crate::items::Items;
use crate::past::Past;
use ppd_ast::{Memory, Seq, Steps};
use ppd_emul::{EmulError, emulate};
use ppd_model::{FlowError, Item};
use std::alloc::Global;
use std::sync::ledger::Ledger;

/// The number of an item or of an interval in 32 bits. `Memory` exactly where it has more.
pub fn number(n: usize) -> Result<u32, Memory>
    ensures ok { IfOk result (λ small. small ≡ n) }
    ensures err { OnErr result (2 ^ 32 ≤ n) }
{
    match u32::try_from(n) {
        Ok(small) => Ok(small),
        Err(_) => Err(Memory),
    }
}

/// The items of an interval of a process, by the replay of that interval from its own log, whatever is kept. An
/// interval that is not there has none. The counter rises by the steps that the interval itself takes.
///
/// `Diverged`: the replay of the interval fails at this entry. `Memory` is want of memory. No other error comes.
pub fn replayed<L: Ledger>(
    alloc: Global,
    past: &Past,
    process: u8,
    interval: u32,
    steps: &mut Steps<L>,
) -> Result<Seq<Item>, FlowError>
    requires { IsPast past.now }
    ensures is { IsReplayed past.now process interval result }
    ensures cost { OnOk result (steps.new ≡ steps.old + steps_in past.now process interval) }
{
    if interval >= past.cut_index.count(process) {
        return Ok(Seq::new(alloc));
    }
    let log = past.cut_index.log(past.cut, process, interval);
    match emulate(alloc, past.program, past.plan, &log, past.budget, steps) {
        Ok(trace) => Ok(trace.items),
        Err(EmulError::Diverged { entry, .. }) => Err(FlowError::Diverged { process, entry }),
        Err(EmulError::Memory) => Err(FlowError::Memory),
    }
}

/// The items that are kept of an interval.
fn kept_items<'a>(past: &Past<'a>, process: u8, interval: u32) -> Option<&'a [Item]>
    ensures { option_copied result ≡ items_kept past.now.kept.now process interval }
{
    match past.kept.get(process as usize) {
        Some(rows) => match rows.get(interval as usize) {
            Some(items) => Some(items.as_slice()),
            None => None,
        },
        None => None,
    }
}

/// The items of an interval of a process: those that are kept, else by the replay of that interval from its own log.
/// An interval that is not there has none. The counter rises by the steps that the interval itself takes where it is
/// replayed.
///
/// `Diverged`: the replay of the interval fails at this entry. `Memory` is want of memory. No other error comes.
pub fn interval_items<'a, L: Ledger>(
    alloc: Global,
    past: &Past<'a>,
    process: u8,
    interval: u32,
    steps: &mut Steps<L>,
) -> Result<Items<'a>, FlowError>
    requires { IsPast past.now }
    ensures { IsFoundBy past.now ((process, interval) ∷ []) (Ok (items_in past.now process interval)) steps.old
        steps.new result }
{
    if let Some(items) = kept_items(past, process, interval) {
        return Ok(Items::kept(items));
    }
    match replayed(alloc, past, process, interval, steps) {
        Ok(items) => Ok(Items::replayed(items)),
        Err(error) => Err(error),
    }
}
