ghost use Rattle.ppd_flow_edges.specs.Asked.{IsAsked};
ghost use Rattle.ppd_flow_past.specs.Pasts.{IsPast};

use ppd_ast::Steps;
use ppd_flow_past::{FlowError, Items, Past, interval_items};
use std::alloc::Global;
use std::sync::ledger::Ledger;

/// The items of an interval of a process, kept or by its replay, where this item is one of them. The counter rises by
/// the steps that the interval itself takes where it is replayed.
///
/// `NoEvent`: the interval has no item of this number. `Diverged`: the replay of the interval fails at this entry.
/// `Memory` is want of memory. No other error comes.
pub fn asked_items<'a, L: Ledger>(
    alloc: Global,
    past: &Past<'a>,
    process: u8,
    interval: u32,
    item: usize,
    steps: &mut Steps<L>,
) -> Result<Items<'a>, FlowError>
    requires { IsPast past.now }
    ensures { IsAsked past.now process interval item steps.old steps.new result }
{
    let items = interval_items(alloc, past, process, interval, steps)?;
    if item >= items.as_slice().len() {
        return Err(FlowError::NoEvent);
    }
    Ok(items)
}
