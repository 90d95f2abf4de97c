// Whether items are those of an interval that is held.
ghost use Rattle.std.specs.Prelude.{◌≡◌, ◌∷◌, []};
ghost use Rattle.std.specs.Bool.{Decides};
ghost use Rattle.std.specs.List.{flat_map};
ghost use Rattle.ppd_model.specs.declared.flow.Item.TheVariants as item_of;
ghost use Rattle.ppd_rerun_ran.specs.Holding.{AreOnes, held_item};
ghost use Rattle.ppd_rerun_ran.specs.Seeing.{seen};

use crate::events::same_event;
use crate::held::{Held, Kept, Part};
use ppd_ast::Nums;
use ppd_model::Item;
use ppd_sem::Event;

/// Whether the item is this event.
fn is_event(item: &Item, event: &Event) -> bool
    ensures { Decides result (item_of.Own event.now ≡ item.now) }
{
    match item {
        Item::Own(own) => same_event(event, own),
        Item::Nested { .. } => false,
    }
}

/// Whether an interval as an item is interval `number`, which is held so.
fn same_nested(
    interval: u32,
    block: u16,
    values: &Nums,
    closed: bool,
    number: u32,
    kept: &Kept,
) -> bool
    ensures { Decides result
        ((number ≡ interval) × (kept.now.block ≡ block) × (kept.now.values ≡ values.now)
        × (kept.now.closed ≡ closed)) }
{
    (number == interval)
        & (kept.block == block)
        & (kept.values == *values)
        & (kept.closed == closed)
}

/// Whether the item is interval `number`, which is held so.
fn is_nested(item: &Item, number: u32, kept: &Kept) -> bool
    ensures { Decides result (item_of.Nested number kept.now.block kept.now.values kept.now.closed ≡ item.now) }
{
    match item {
        Item::Nested {
            interval,
            block,
            values,
            closed,
        } => same_nested(*interval, *block, values, *closed, number, kept),
        Item::Own(_) => false,
    }
}

/// Whether the item is this part.
fn is_part(item: &Item, held: &Held, part: Part) -> bool
    ensures { Decides result (held_item (seen held.now) part ≡ item.now ∷ []) }
{
    match part {
        Part::Own(number) => match held.events.get(number as usize) {
            Some(event) => is_event(item, event),
            None => false,
        },
        Part::Nested(number) => match held.spans.get(number as usize) {
            Some(kept) => is_nested(item, number, kept),
            None => false,
        },
    }
}

/// Whether these are the items of an interval that has these parts.
pub fn are_items(items: &[Item], held: &Held, parts: &[Part]) -> bool
    requires { AreOnes (seen held.now) parts.now }
    ensures { Decides result (items.now ≡ flat_map (held_item (seen held.now)) parts.now) }
{
    if items.len() != parts.len() {
        return false;
    }
    for index in 0..items.len() {
        if !is_part(&items[index], held, parts[index]) {
            return false;
        }
    }
    true
}
