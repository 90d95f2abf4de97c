// The events of a process, joined from the items of its intervals.
ghost use Rattle.std.specs.Prelude.{◌≡◌, [], ◌∷◌, ◌++◌, get_or, length, map, IfOk, OnOk};
ghost use Rattle.law_flow.specs.Joined.{events_in, events_of_item, joined};
ghost use Rattle.ppd_graph.specs.Seen.{Seen};

use ppd_ast::{Memory, Seq};
use ppd_model::Item;
use ppd_sem::Event;
use std::alloc::Global;

fn add_event<'a>(events: &mut Vec<&'a Event>, event: &'a Event) -> Result<(), Memory>
    ensures { OnOk result
        (map (λ e. e.now) events.new.items ≡ map (λ e. e.now) events.old.items ++ event.now ∷ []) }
{
    events.push(event)?;
    Ok(())
}

// An item's events: those of an interval down to this depth.
#[cycle(joining)]
fn add_item<'a>(
    events: &mut Vec<&'a Event>,
    rows: &'a [Seq<Item>],
    depth: usize,
    item: &'a Item,
) -> Result<(), Memory>
    ensures { OnOk result
        ((x : Seen) → x.items ≡ rows.now
        → map (λ e. e.now) events.new.items
        ≡ map (λ e. e.now) events.old.items ++ events_of_item (joined depth x) item.now) }
{
    match item {
        Item::Own(event) => add_event(events, event),
        Item::Nested { interval, .. } => add_interval(events, rows, depth, *interval),
    }
}

#[cycle(joining)]
fn add_interval<'a>(
    events: &mut Vec<&'a Event>,
    rows: &'a [Seq<Item>],
    depth: usize,
    interval: u32,
) -> Result<(), Memory>
    ensures { OnOk result
        ((x : Seen) → x.items ≡ rows.now
        → map (λ e. e.now) events.new.items ≡ map (λ e. e.now) events.old.items ++ joined depth x interval) }
{
    if depth == 0 {
        return Ok(());
    }
    let items = items_of(rows, interval);
    for item in items {
        add_item(events, rows, depth - 1, item)?;
    }
    Ok(())
}

fn items_of(rows: &[Seq<Item>], interval: u32) -> &[Item]
    ensures { result.now ≡ get_or rows.now interval [] }
{
    match rows.get(interval as usize) {
        Some(items) => items.as_slice(),
        None => &[],
    }
}

/// The events of all intervals of a process, in order: an interval's stand where it is an item.
pub fn events_of<'a>(alloc: Global, rows: &'a [Seq<Item>]) -> Result<Vec<&'a Event>, Memory>
    ensures { IfOk result
        (λ events. (x : Seen) → x.items ≡ rows.now → map (λ e. e.now) events.items ≡ events_in x) }
{
    let mut events = Vec::new(alloc);
    add_interval(&mut events, rows, rows.len(), 0)?;
    Ok(events)
}
