ghost use Rattle.std.specs.Prelude.{[], ◌∷◌, Ok, length, nat_lt};
ghost use Rattle.ppd_flow_past.specs.ByReplays.{IsFoundBy};
ghost use Rattle.ppd_flow_past.specs.Pasts.{IsPast};
ghost use Rattle.ppd_flow_past.specs.SeenBy.{items_in};

use crate::reached::ItemAt;
use ppd_ast::Steps;
use ppd_flow_past::{FlowError, Past, interval_items};
use std::alloc::Global;
use std::sync::ledger::Ledger;

/// Whether an interval has an item of this number. The counter rises by the own steps of the interval, where it is not
/// kept.
///
/// `Diverged`: the replay of the interval fails at this entry. `Memory` is want of memory. No other error comes.
pub fn has_item<L: Ledger>(
    alloc: Global,
    past: &Past,
    at: ItemAt,
    steps: &mut Steps<L>,
) -> Result<bool, FlowError>
    requires { IsPast past.now }
    ensures { IsFoundBy past.now ((at.process, at.interval) ∷ [])
        (Ok (nat_lt at.item (length (items_in past.now at.process at.interval)))) steps.old steps.new result }
{
    match interval_items(alloc, past, at.process, at.interval, steps) {
        Ok(items) => Ok((at.item as usize) < items.as_slice().len()),
        Err(error) => Err(error),
    }
}
