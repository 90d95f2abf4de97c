ghost use Rattle.std.specs.Prelude.{◌≡◌, ◌<◌, ◌≤◌, ◌+◌, ◌++◌, ◌∷◌, [], IfOk, OnOk, length, replicate};
ghost use Rattle.ppd_model.specs.World.{change};
ghost use Rattle.ppd_race_found.specs.Lists.{GrowsBy, one_at, total};

use ppd_ast::{Memory, Seq, Steps};
use std::alloc::Global;
use std::sync::ledger::Ledger;

/// Lists by their places.
pub type Lists<T> = Vec<Seq<T>>;

fn push_none<T: Drop>(lists: &mut Lists<T>, alloc: Global) -> Result<(), Memory>
    ensures { OnOk result (lists.new.items ≡ lists.old.items ++ [] ∷ []) }
{
    lists.push(Seq::new(alloc))?;
    Ok(())
}

/// So many empty lists. `Memory` is want of memory.
pub fn no_lists<T: Drop, L: Ledger>(
    alloc: Global,
    count: usize,
    steps: &mut Steps<L>,
) -> Result<Lists<T>, Memory>
    ensures none { IfOk result (λ lists. lists.items ≡ replicate count []) }
    ensures cost { steps.new ≤ steps.old + count }
    ensures taken { OnOk result (steps.new ≡ steps.old + count) }
{
    let mut lists = Vec::new(alloc);
    for _place in 0..count {
        steps.tick();
        push_none(&mut lists, alloc)?;
    }
    Ok(lists)
}

fn push_one<T: Drop>(list: &mut Seq<T>, item: T) -> Result<(), Memory>
    ensures { OnOk result (list.new ≡ list.old ++ item ∷ []) }
{
    list.push(item)
}

fn push_in<T: Drop>(lists: &mut Lists<T>, place: usize, item: T) -> Result<(), Memory>
    requires { place < length lists.old.items }
    ensures { OnOk result (lists.new.items ≡ change (λ list. list ++ item ∷ []) place lists.old.items) }
{
    push_one(&mut lists[place], item)
}

/// Appends an item to the list at a place, where there is one. `Memory` is want of memory.
pub fn push_at<T: Drop, L: Ledger>(
    lists: &mut Lists<T>,
    place: usize,
    item: T,
    steps: &mut Steps<L>,
) -> Result<(), Memory>
    ensures grows { OnOk result (GrowsBy (one_at place item) lists.old.items lists.new.items) }
    ensures spent { OnOk result (steps.new + total lists.old.items ≡ steps.old + total lists.new.items) }
    ensures cost { steps.new ≤ steps.old + 1 }
    ensures on { steps.old ≤ steps.new }
{
    if place >= lists.len() {
        return Ok(());
    }
    steps.tick();
    push_in(lists, place, item)?;
    Ok(())
}
