// Whether the past of what is asked has a race.
ghost use Rattle.std.specs.Prelude.{◌≡◌, IfErr, IfOk, OnOk, slice_get, take, Err};
ghost use Rattle.ppd_clean.specs.Answers.{IsAnswer, IsCleanItem, IsItem, answer_at, reached_from, unclean_error};
ghost use Rattle.ppd_clean.specs.ByOrder.{is_unclean as is_unclean_of};
ghost use Rattle.ppd_flow_past.specs.Pasts.{IsPast};
ghost use Rattle.ppd_flow_past.specs.SeenBy.{items_in, seen_in};
ghost use Rattle.ppd_flow.specs.SharedCells.{seens_in};

use crate::clean_error::CleanError;
use crate::left::{edge_of_item, left_edge};
use ppd_ast::{Memory, Seq};
use ppd_clean_past::{Asked, is_unclean_at};
use ppd_flow_past::Past;
use ppd_model::{EdgeId, Item};

/// Whether the past of the item has a race. The item is the one that is asked, after those before it in its interval.
fn is_unclean(past: &Past, asked: &Asked, before: &[Item], item: &Item) -> Result<bool, Memory>
    requires past { IsPast past.now }
    requires before { before.now ≡ take asked.now.item (items_in past.now asked.now.process asked.now.interval) }
    ensures { IfOk result
        (λ unclean. unclean ≡ is_unclean_of past.now asked.now (seen_in past.now asked.now.process) item.now) }
{
    let Some(_) = asked.first else {
        return Ok(false);
    };
    let edge = edge_of_item(past, asked, before, item)?;
    Ok(is_unclean_at(past, asked, item, edge))
}

pub(crate) fn unclean(process: u8, first: Option<u32>) -> CleanError
    ensures { result ≡ unclean_error process first }
{
    match first {
        Some(edge) => CleanError::Unclean(EdgeId { process, edge }),
        None => CleanError::NoEvent,
    }
}

/// Why there is no item of this number: the interval reaches an edge whose past has a race, or it does not.
fn no_item(past: &Past, asked: &Asked) -> CleanError
    requires { IsPast past.now }
    ensures { IsAnswer (reached_from past.now asked.now asked.now.first) (Err result) }
{
    let Some(first) = asked.first else {
        return CleanError::NoEvent;
    };
    match left_edge(past, asked.process, asked.interval) {
        Err(Memory) => CleanError::Memory,
        Ok(left) => {
            if first <= left {
                unclean(asked.process, asked.first)
            } else {
                CleanError::NoEvent
            }
        }
    }
}

/// Whether there is such an item among those of its interval, and no race touches its past.
fn check_item(past: &Past, asked: &Asked, items: &[Item]) -> Result<(), CleanError>
    requires past { IsPast past.now }
    requires items { items.now ≡ items_in past.now asked.now.process asked.now.interval }
    ensures ok { OnOk result (IsCleanItem past.now asked.now (slice_get items.now asked.now.item)) }
    ensures err { IfErr result (λ e. IsAnswer
        (answer_at past.now asked.now (seens_in past.now) (slice_get items.now asked.now.item)) (Err e)) }
{
    let place = asked.item as usize;
    if place >= items.len() {
        return Err(no_item(past, asked));
    }
    if is_unclean(past, asked, &items[..place], &items[place])? {
        return Err(unclean(asked.process, asked.first));
    }
    Ok(())
}

/// The item that is asked, of the items of its interval, where no race touches its past.
pub(crate) fn clean_item(past: &Past, asked: &Asked, items: Seq<Item>) -> Result<Item, CleanError>
    requires past { IsPast past.now }
    requires items { items ≡ items_in past.now asked.now.process asked.now.interval }
    ensures { IsItem past.now asked.now (slice_get items asked.now.item) result }
{
    check_item(past, asked, items.as_slice())?;
    let mut items = items.into_vec();
    Ok(items.swap_remove(asked.item as usize))
}
