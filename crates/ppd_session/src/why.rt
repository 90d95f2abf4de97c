// An item with its flowback edges.
ghost use Rattle.std.specs.Prelude.{◌≡◌, ◌<◌, ◌++◌, [], Some, None, Ok, IfOk, OnOk, IfErr, length};
ghost use Rattle.ppd_flow_past.specs.Pasts.{IsPast};
ghost use Rattle.ppd_flow_past.specs.PastSetting.{past_setting};
ghost use Rattle.ppd_session.specs.Known.{flow_by};
ghost use Rattle.ppd_session.specs.Sessions.{IsWhy, known_by};
ghost use Rattle.ppd_session.specs.Texts.{flow_at, flow_text, told_at, told_failure, told_text, unfound_flow};
ghost use Rattle.ppd_session.specs.declared.reply.SessionError.TheVariants as session_error;
ghost use Rattle.ppd_flow.specs.SharedCells.{IsMemoryOr};
ghost use Rattle.ppd_text.specs.Edges.{why_text as why_text_of};

use crate::opening::no_items;
use crate::place::Place;
use crate::refusing::put_refusal;
use crate::reply::SessionError;
use ppd_ast::{Memory, Seq, Steps};
use ppd_flow::{ItemPlace, TabledItems, edges_from};
use ppd_flow_past::{FlowError, Past, number};
use ppd_model::{FlowEdge, Item};
use ppd_text::put_why;
use std::alloc::Global;
use std::marker::Brand;
use std::sync::ledger::{Blank, Ledger};

/// The text of an item with these flowback edges into it: the item's line, by its number in this interval of this
/// process, and then a line for each edge, in order, as `why` answers. Local cells are named as the variables of the
/// body in which the item's statement or block stands, so the text is the same in whichever interval the item is.
/// `Memory` is want of memory.
pub fn why_text(
    alloc: Global,
    past: &Past,
    _process: u8,
    _interval: u32,
    number: u32,
    item: &Item,
    edges: &[FlowEdge],
) -> Result<Vec<u8>, Memory>
    ensures { IfOk result
        (λ text. text.items
        ≡ why_text_of past.now.program.now past.now.plan.now number item.now edges.now) }
{
    let mut text = Vec::new(alloc);
    put_why(
        &mut text,
        past.program,
        past.plan,
        number as usize,
        item,
        edges,
    )?;
    Ok(text)
}

/// The items of an interval, as they were told.
#[derive(Clone, Copy)]
struct Block<'a> {
    process: u8,
    interval: u32,
    items: &'a [Item],
}

fn edges_in<L: Ledger>(
    alloc: Global,
    past: &Past,
    block: &Block,
    item: u32,
    blank: Blank,
) -> Result<Seq<FlowEdge>, FlowError>
    requires name { blank.name ≡ L.name }
    requires parts { blank.parts ≡ L.parts }
    requires some { 0 < blank.parts }
    requires past { IsPast past.now }
    requires uncut { past.now.cut.now ≡ past.now.logs.now }
    requires told { told_at (known_by past.now []) block.now.process block.now.interval
        ≡ Some (Ok block.now.items.now) }
    ensures { IsMemoryOr
        (flow_by (past_setting past.now) past.now.logs.now block.now.process
        block.now.interval item)
        result }
{
    let mut steps: Steps<L> = Steps::new(blank);
    let at = ItemPlace {
        process: block.process,
        interval: block.interval,
        item: item as usize,
    };
    let given = TabledItems {
        items: block.items,
        tables: None,
    };
    edges_from(alloc, past, at, given, &mut steps)
}

/// The edges of an item, by replays of other intervals than its own.
fn edges_of(
    alloc: Global,
    past: &Past,
    block: &Block,
    item: u32,
) -> Result<Seq<FlowEdge>, FlowError>
    requires past { IsPast past.now }
    requires uncut { past.now.cut.now ≡ past.now.logs.now }
    requires told { told_at (known_by past.now []) block.now.process block.now.interval
        ≡ Some (Ok block.now.items.now) }
    ensures { IsMemoryOr
        (flow_by (past_setting past.now) past.now.logs.now block.now.process
        block.now.interval item)
        result }
{
    edges_in::<Brand>(alloc, past, block, item, Blank::new(1))
}

fn put_edges(
    text: &mut Vec<u8>,
    past: &Past,
    item: u32,
    shown: &Item,
    edges: &[FlowEdge],
) -> Result<(), SessionError>
    ensures text { OnOk result
        (text.new.items
        ≡ text.old.items ++ why_text_of past.now.program.now past.now.plan.now item shown.now edges.now) }
    ensures error { IfErr result (λ e. e ≡ session_error.Memory) }
{
    put_why(text, past.program, past.plan, item as usize, shown, edges)?;
    Ok(())
}

/// Appends an item with its edges, or that there is no such item.
fn put_flow(
    alloc: Global,
    text: &mut Vec<u8>,
    past: &Past,
    block: &Block,
    item: u32,
    shown: &Item,
) -> Result<(), SessionError>
    requires past { IsPast past.now }
    requires uncut { past.now.cut.now ≡ past.now.logs.now }
    requires told { told_at (known_by past.now []) block.now.process block.now.interval
        ≡ Some (Ok block.now.items.now) }
    ensures text { OnOk result
        (text.new.items
        ≡ text.old.items
        ++ flow_text past.now.program.now past.now.plan.now item shown.now
        (flow_by (past_setting past.now) past.now.logs.now block.now.process
        block.now.interval item)) }
    ensures told { OnOk result
        (unfound_flow
        (flow_by (past_setting past.now) past.now.logs.now block.now.process
        block.now.interval item)
        ≡ None) }
    ensures error { IfErr result
        (IsWhy
        (unfound_flow
        (flow_by (past_setting past.now) past.now.logs.now block.now.process
        block.now.interval item))) }
{
    match edges_of(alloc, past, block, item) {
        Ok(edges) => put_edges(text, past, item, shown, edges.as_slice()),
        Err(FlowError::NoEvent) => put_refusal(text, b"? event\n"),
        Err(error) => Err(no_items(error)),
    }
}

/// The same of one of the items that are told of the interval.
fn put_told(
    alloc: Global,
    text: &mut Vec<u8>,
    past: &Past,
    block: &Block,
    item: u32,
    shown: &Item,
) -> Result<(), SessionError>
    requires past { IsPast past.now }
    requires uncut { past.now.cut.now ≡ past.now.logs.now }
    requires told { told_at (known_by past.now []) block.now.process block.now.interval
        ≡ Some (Ok block.now.items.now) }
    requires there { item < length block.now.items.now }
    ensures text { OnOk result
        (text.new.items
        ≡ text.old.items
        ++ flow_text past.now.program.now past.now.plan.now item shown.now
        (flow_at (known_by past.now []) block.now.process block.now.interval item)) }
    ensures told { OnOk result
        (unfound_flow (flow_at (known_by past.now []) block.now.process block.now.interval item) ≡ None) }
    ensures error { IfErr result
        (IsWhy (unfound_flow (flow_at (known_by past.now []) block.now.process block.now.interval item))) }
{
    put_flow(alloc, text, past, block, item, shown)
}

/// Appends item `item` of these, the items of an interval, with its edges, if it is there.
pub(crate) fn put_item_of(
    alloc: Global,
    text: &mut Vec<u8>,
    past: &Past,
    place: Place,
    item: u64,
    items: &[Item],
) -> Result<(), SessionError>
    requires past { IsPast past.now }
    requires uncut { past.now.cut.now ≡ past.now.logs.now }
    requires told { told_at (known_by past.now []) place.process place.interval ≡ Some (Ok items.now) }
    ensures text { OnOk result
        (text.new.items
        ≡ text.old.items
        ++ told_text (known_by past.now []) place.process place.interval (Some item) (Some (Ok items.now))) }
    ensures told { OnOk result
        (told_failure (known_by past.now []) place.process place.interval (Some item) (Some (Ok items.now))
        ≡ None) }
    ensures error { IfErr result
        (IsWhy (told_failure (known_by past.now []) place.process place.interval (Some item)
        (Some (Ok items.now)))) }
{
    let Some(shown) = items.get(item as usize) else {
        return put_refusal(text, b"? event\n");
    };
    let item = number(item as usize)?;
    let block = Block {
        process: place.process,
        interval: place.interval,
        items,
    };
    put_told(alloc, text, past, &block, item, shown)
}
