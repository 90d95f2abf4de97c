// The items of an interval, and one of them.
ghost use Rattle.ppd_flow_past.specs.Pasts.{IsPast};
ghost use Rattle.ppd_model.specs.declared.flow_error.FlowError.TheVariants as flow_error;
ghost use Rattle.ppd_index.specs.Indexes.{rows_at};
ghost use Rattle.ppd_session.specs.Keeping.{AreAsked, IsAsked};
ghost use Rattle.ppd_session.specs.Known.{unless_raced};
ghost use Rattle.ppd_session.specs.Sessions.{AreTold, IsCause, IsSession, IsWhy, block_at, error_of, known_by};
ghost use Rattle.ppd_session.specs.Texts.{failure_at, opened_text, opening_failure, races_refusal, told_at, told_failure, told_text};
ghost use Rattle.ppd_session.specs.declared.reply.SessionError.TheVariants as session_error;
ghost use Rattle.ppd_text.specs.Items.{item_line};
ghost use Rattle.ppd_text.specs.Plans.{lines_of};
ghost use Rattle.std.specs.Option.{unwrap_or};
ghost use Rattle.std.specs.Prelude.{IfErr, IfOk, IfSome, None, Ok, OnOk, Some, [], get_or, is_some, length, nat_lt, ◌++◌, ◌<◌, ◌∷◌, ◌≡◌, ◌≤◌};

use crate::kept::Kept;
use crate::place::Place;
use crate::question::Opening;
use crate::races::put_racy;
use crate::refusing::put_refusal;
use crate::reply::SessionError;
use crate::why::put_item_of;
use ppd_ast::{Seq, Steps};
use ppd_flow_past::{FlowError, Past, replayed};
use ppd_model::{At, Item, Race};
use ppd_text::put_items;
use std::alloc::Global;
use std::marker::Brand;
use std::sync::ledger::{Blank, Ledger};

// ---- replays

/// Why a replay gives no items, or a search no last write.
pub fn no_items(error: FlowError) -> SessionError
    requires event { (error ≡ flow_error.NoEvent) → ⊥ }
    ensures { result ≡ error_of error }
{
    match error {
        FlowError::Diverged { process, entry } => SessionError::Diverged(At { process, entry }),
        FlowError::NoEvent => unreachable!(),
        FlowError::Sets { process, entry, .. } => SessionError::Sets(At { process, entry }),
        FlowError::Memory => SessionError::Memory,
    }
}

fn replayed_in<L: Ledger>(
    alloc: Global,
    past: &Past,
    place: Place,
    blank: Blank,
) -> Result<Seq<Item>, SessionError>
    requires name { blank.name ≡ L.name }
    requires parts { blank.parts ≡ L.parts }
    requires some { 0 < blank.parts }
    requires past { IsPast past.now }
    requires uncut { past.now.cut.now ≡ past.now.logs.now }
    requires there { place.interval < length (rows_at past.now.index.now.tables place.process) }
    ensures items { IfOk result
        (λ items. told_at (known_by past.now []) place.process place.interval ≡ Some (Ok items)) }
    ensures error { IfErr result
        (IsCause (failure_at (known_by past.now []) (Some place.process) place.interval)) }
{
    let mut steps: Steps<L> = Steps::new(blank);
    match replayed(alloc, past, place.process, place.interval, &mut steps) {
        Ok(items) => Ok(items),
        Err(error) => Err(no_items(error)),
    }
}

/// The items of an interval that is there, by its replay.
pub(crate) fn replay(alloc: Global, past: &Past, place: Place) -> Result<Seq<Item>, SessionError>
    requires past { IsPast past.now }
    requires uncut { past.now.cut.now ≡ past.now.logs.now }
    requires there { place.interval < length (rows_at past.now.index.now.tables place.process) }
    ensures items { IfOk result
        (λ items. told_at (known_by past.now []) place.process place.interval ≡ Some (Ok items)) }
    ensures error { IfErr result
        (IsCause (failure_at (known_by past.now []) (Some place.process) place.interval)) }
{
    replayed_in::<Brand>(alloc, past, place, Blank::new(1))
}

// ---- texts

fn put_all(text: &mut Vec<u8>, past: &Past, items: &[Item]) -> Result<(), SessionError>
    ensures text { OnOk result
        (text.new.items ≡ text.old.items ++ lines_of (item_line past.now.program.now past.now.plan.now) items.now) }
    ensures error { IfErr result (λ e. e ≡ session_error.Memory) }
{
    put_items(text, past.program, past.plan, items)?;
    Ok(())
}

/// Appends all items of an interval, or one of them with its edges.
fn put_told(
    alloc: Global,
    text: &mut Vec<u8>,
    past: &Past,
    place: Place,
    item: Option<u64>,
    items: &[Item],
) -> Result<(), SessionError>
    requires past { IsPast past.now }
    requires uncut { past.now.cut.now ≡ past.now.logs.now }
    requires told { told_at (known_by past.now []) place.process place.interval ≡ Some (Ok items.now) }
    ensures text { OnOk result
        (text.new.items
        ≡ text.old.items ++ told_text (known_by past.now []) place.process place.interval item (Some (Ok items.now))) }
    ensures told { OnOk result
        (told_failure (known_by past.now []) place.process place.interval item (Some (Ok items.now)) ≡ None) }
    ensures error { IfErr result
        (IsWhy (told_failure (known_by past.now []) place.process place.interval item (Some (Ok items.now)))) }
{
    match item {
        None => put_all(text, past, items),
        Some(item) => put_item_of(alloc, text, past, place, item, items),
    }
}

/// The same of an interval that is there, by a kept block or by its replay, which is then kept.
fn put_block(
    alloc: Global,
    text: &mut Vec<u8>,
    past: &Past,
    kept: &mut Kept,
    place: Place,
    item: Option<u64>,
) -> Result<(), SessionError>
    requires past { IsPast past.now }
    requires uncut { past.now.cut.now ≡ past.now.logs.now }
    requires kept { AreTold (known_by past.now []) kept.old.blocks }
    requires there { place.interval < length (rows_at past.now.index.now.tables place.process) }
    ensures text { OnOk result
        (text.new.items
        ≡ text.old.items
        ++ told_text (known_by past.now []) place.process place.interval item
        (told_at (known_by past.now []) place.process place.interval)) }
    ensures told { OnOk result
        (told_failure (known_by past.now []) place.process place.interval item
        (told_at (known_by past.now []) place.process place.interval)
        ≡ None) }
    ensures error { IfErr result
        (IsWhy
        (told_failure (known_by past.now []) place.process place.interval item
        (told_at (known_by past.now []) place.process place.interval))) }
    ensures kept { IsAsked (known_by past.now []) (Some place) kept.old kept.new }
{
    kept.touch(place);
    if let Some(items) = kept.find(place) {
        return put_told(alloc, text, past, place, item, items.as_slice());
    }
    let items = replay(alloc, past, place)?;
    put_told(alloc, text, past, place, item, items.as_slice())?;
    kept.keep(place, items);
    Ok(())
}

/// The number of an interval of a process, if it is there.
pub fn interval_there(past: &Past, process: u8, interval: u64) -> Option<u32>
    requires { IsPast past.now }
    ensures known { is_some result ≡ nat_lt interval (length (get_or (known_by past.now []).intervals process [])) }
    ensures there { IfSome result
        (λ k. (k ≡ interval) × (k < length (rows_at past.now.index.now.tables process))) }
    ensures none { result ≡ None → length (rows_at past.now.index.now.tables process) ≤ interval }
{
    if interval < u64::from(past.index.count(process)) {
        return Some(interval as u32);
    }
    None
}

/// Appends what is asked of an interval of a past without races, if its process and the interval are there.
fn put_interval(
    alloc: Global,
    text: &mut Vec<u8>,
    past: &Past,
    kept: &mut Kept,
    opening: Opening,
) -> Result<(), SessionError>
    requires past { IsPast past.now }
    requires uncut { past.now.cut.now ≡ past.now.logs.now }
    requires kept { AreTold (known_by past.now []) kept.old.blocks }
    ensures text { OnOk result
        (text.new.items
        ≡ text.old.items
        ++ opened_text (known_by past.now []) opening.process opening.interval opening.item) }
    ensures told { OnOk result
        (opening_failure (known_by past.now []) opening.process opening.interval opening.item ≡ None) }
    ensures error { IfErr result
        (IsWhy (opening_failure (known_by past.now []) opening.process opening.interval opening.item)) }
    ensures kept { IsAsked (known_by past.now []) (block_at (known_by past.now []) opening.process opening.interval)
        kept.old kept.new }
{
    let Some(process) = opening.process else {
        return put_refusal(text, b"? process\n");
    };
    let Some(interval) = interval_there(past, process, opening.interval) else {
        return put_refusal(text, b"? block\n");
    };
    let place = Place { process, interval };
    put_block(alloc, text, past, kept, place, opening.item)
}

/// Appends how many races there are, where there are some.
pub(crate) fn put_many_races(text: &mut Vec<u8>, races: &[Race]) -> Result<(), SessionError>
    ensures text { OnOk result (text.new.items ≡ text.old.items ++ unwrap_or (races_refusal races.now) []) }
    ensures error { IfErr result (λ e. e ≡ session_error.Memory) }
{
    put_racy(text, races)?;
    Ok(())
}

/// Appends what is asked of an interval, or how many races there are.
pub(crate) fn put_open(
    alloc: Global,
    text: &mut Vec<u8>,
    past: &Past,
    races: &[Race],
    kept: &mut Kept,
    opening: Opening,
) -> Result<(), SessionError>
    requires { IsSession past.now races.now kept.old }
    ensures text { OnOk result
        (text.new.items
        ≡ text.old.items
        ++ opened_text (known_by past.now races.now) opening.process opening.interval opening.item) }
    ensures told { OnOk result
        (opening_failure (known_by past.now races.now) opening.process opening.interval opening.item ≡ None) }
    ensures error { IfErr result
        (IsWhy (opening_failure (known_by past.now races.now) opening.process opening.interval opening.item)) }
    ensures kept { AreAsked (known_by past.now races.now)
        (unless_raced races.now (block_at (known_by past.now races.now) opening.process opening.interval ∷ []))
        kept.old kept.new }
{
    if !races.is_empty() {
        return put_many_races(text, races);
    }
    put_interval(alloc, text, past, kept, opening)
}
