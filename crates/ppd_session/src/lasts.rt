// The last values of the shared cells.
ghost use Rattle.std.specs.Result.{result_err};
ghost use Rattle.std.specs.List.{filter_map};
ghost use Rattle.std.specs.Option.{unwrap_or};
ghost use Rattle.std.specs.Prelude.{◌≡◌, ◌⊎◌, ◌<◌, ◌++◌, [], Ok, None, Some, IfOk, IfErr, IfSome, OnErr, OnOk, length, option_copied, slice_get};
ghost use Rattle.ppd_index.specs.Indexes.{rows_at};
ghost use Rattle.ppd_flow_past.specs.Pasts.{IsPast};
ghost use Rattle.ppd_flow_past.specs.PastSetting.{past_setting};
ghost use Rattle.ppd_session.specs.Known.{last_by, unless_raced};
ghost use Rattle.ppd_flow.specs.Tabled.{IsOfInterval};
ghost use Rattle.ppd_session.specs.LastTables.{AreOfLast};
ghost use Rattle.ppd_session.specs.Keeping.{AreAsked, AreAskedInPart, IsAsked};
ghost use Rattle.ppd_session.specs.Sessions.{AreTold, IsSession, IsLineOf, IsWhy, known_by, last_block, last_blocks};
ghost use Rattle.ppd_session.specs.Sessions.{place_of, unfound};
ghost use Rattle.ppd_session.specs.declared.reply.SessionError.TheVariants as session_error;
ghost use Rattle.ppd_session.specs.Texts.{lasts_text, told_at, races_refusal};
ghost use Rattle.ppd_flow.specs.SharedCells.{last_edge as last_edge_of};
ghost use Rattle.ppd_text.specs.Edges.{last_line};

use crate::kept::Kept;
use crate::last_tables::LastTables;
use crate::opening::{no_items, put_many_races, replay};
use crate::place::Place;
use crate::reply::SessionError;
use ppd_ast::Steps;
use ppd_flow::{BlockTables, LastEdge, TabledItems, last, last_edge, last_from};
use ppd_flow_past::Past;
use ppd_model::{Item, Origin, Race};
use ppd_text::put_last;
use std::alloc::Global;
use std::marker::Brand;
use std::sync::ledger::{Blank, Ledger};

// ---- by replays alone

fn last_in<L: Ledger>(
    alloc: Global,
    past: &Past,
    cell: u16,
    blank: Blank,
) -> Result<(i64, Origin), SessionError>
    requires name { blank.name ≡ L.name }
    requires parts { blank.parts ≡ L.parts }
    requires some { 0 < blank.parts }
    requires past { IsPast past.now }
    requires uncut { past.now.cut.now ≡ past.now.logs.now }
    ensures value { IfOk result
        (λ x. last_by (past_setting past.now) past.now.logs.now cell ≡ Ok x) }
    ensures error { IfErr result
        (IsWhy (unfound (last_by (past_setting past.now) past.now.logs.now cell))) }
{
    let mut steps: Steps<L> = Steps::new(blank);
    match last(alloc, past, cell, &mut steps) {
        Ok(found) => Ok(found),
        Err(error) => Err(no_items(error)),
    }
}

/// The last value of a shared cell with the write of it, by replays.
fn last_of(alloc: Global, past: &Past, cell: u16) -> Result<(i64, Origin), SessionError>
    requires past { IsPast past.now }
    requires uncut { past.now.cut.now ≡ past.now.logs.now }
    ensures value { IfOk result
        (λ x. last_by (past_setting past.now) past.now.logs.now cell ≡ Ok x) }
    ensures error { IfErr result
        (IsWhy (unfound (last_by (past_setting past.now) past.now.logs.now cell))) }
{
    last_in::<Brand>(alloc, past, cell, Blank::new(1))
}

// ---- with the block in which the writer's edge ends

fn last_told_in<L: Ledger>(
    alloc: Global,
    past: &Past,
    cell: u16,
    last: LastEdge,
    given: TabledItems,
    blank: Blank,
) -> Result<(i64, Origin), SessionError>
    requires name { blank.name ≡ L.name }
    requires parts { blank.parts ≡ L.parts }
    requires some { 0 < blank.parts }
    requires past { IsPast past.now }
    requires uncut { past.now.cut.now ≡ past.now.logs.now }
    requires last { last_edge_of past.now cell ≡ Some last }
    requires told { told_at (known_by past.now []) last.edge.process last.interval ≡ Some (Ok given.items.now) }
    requires tables { IfSome (option_copied given.tables)
        (IsOfInterval past.now last.edge.process last.interval) }
    ensures value { IfOk result
        (λ x. last_by (past_setting past.now) past.now.logs.now cell ≡ Ok x) }
    ensures error { IfErr result
        (IsWhy (unfound (last_by (past_setting past.now) past.now.logs.now cell))) }
{
    let mut steps: Steps<L> = Steps::new(blank);
    match last_from(alloc, past, cell, last, given, &mut steps) {
        Ok(found) => Ok(found),
        Err(error) => Err(no_items(error)),
    }
}

/// The same from the items of the interval in which the edge ends that wrote the cell last.
fn last_told(
    alloc: Global,
    past: &Past,
    cell: u16,
    last: LastEdge,
    given: TabledItems,
) -> Result<(i64, Origin), SessionError>
    requires past { IsPast past.now }
    requires uncut { past.now.cut.now ≡ past.now.logs.now }
    requires last { last_edge_of past.now cell ≡ Some last }
    requires told { told_at (known_by past.now []) last.edge.process last.interval ≡ Some (Ok given.items.now) }
    requires tables { IfSome (option_copied given.tables)
        (IsOfInterval past.now last.edge.process last.interval) }
    ensures value { IfOk result
        (λ x. last_by (past_setting past.now) past.now.logs.now cell ≡ Ok x) }
    ensures error { IfErr result
        (IsWhy (unfound (last_by (past_setting past.now) past.now.logs.now cell))) }
{
    last_told_in::<Brand>(alloc, past, cell, last, given, Blank::new(1))
}

/// The same with the tables of these items, where they were made.
fn last_looked_up<'a>(
    alloc: Global,
    past: &Past,
    cell: u16,
    last: LastEdge,
    items: &'a [Item],
    tables: Option<&'a BlockTables>,
) -> Result<(i64, Origin), SessionError>
    requires past { IsPast past.now }
    requires uncut { past.now.cut.now ≡ past.now.logs.now }
    requires last { last_edge_of past.now cell ≡ Some last }
    requires told { told_at (known_by past.now []) last.edge.process last.interval ≡ Some (Ok items.now) }
    requires tables { IfSome (option_copied tables) (IsOfInterval past.now last.edge.process last.interval) }
    ensures value { IfOk result
        (λ x. last_by (past_setting past.now) past.now.logs.now cell ≡ Ok x) }
    ensures error { IfErr result
        (IsWhy (unfound (last_by (past_setting past.now) past.now.logs.now cell))) }
{
    last_told(alloc, past, cell, last, TabledItems { items, tables })
}

/// The same by a kept block, or by the replay of that interval, which is then kept: so cells that one interval wrote
/// need one replay of it.
fn last_kept(
    alloc: Global,
    past: &Past,
    kept: &mut Kept,
    tables: &mut LastTables,
    cell: u16,
    last: LastEdge,
) -> Result<(i64, Origin), SessionError>
    requires past { IsPast past.now }
    requires uncut { past.now.cut.now ≡ past.now.logs.now }
    requires kept { AreTold (known_by past.now []) kept.old.blocks }
    requires tables { AreOfLast past.now tables.old }
    requires last { last_edge_of past.now cell ≡ Some last }
    requires there { last.interval < length (rows_at past.now.index.now.tables last.edge.process) }
    ensures value { IfOk result
        (λ x. last_by (past_setting past.now) past.now.logs.now cell ≡ Ok x) }
    ensures error { IfErr result
        (IsWhy (unfound (last_by (past_setting past.now) past.now.logs.now cell))) }
    ensures kept { IsAsked (known_by past.now []) (Some (place_of last)) kept.old kept.new }
    ensures tables { AreOfLast past.now tables.new }
{
    let place = Place {
        process: last.edge.process,
        interval: last.interval,
    };
    kept.touch(place);
    if let Some(items) = kept.find(place) {
        let items = items.as_slice();
        tables.ask(alloc, past, place, items);
        return last_looked_up(alloc, past, cell, last, items, tables.find(place));
    }
    let items = replay(alloc, past, place)?;
    let given = TabledItems {
        items: items.as_slice(),
        tables: None,
    };
    let found = last_told(alloc, past, cell, last, given)?;
    kept.keep(place, items);
    Ok(found)
}

/// The last value of a shared cell with the write of it.
fn last_of_cell(
    alloc: Global,
    past: &Past,
    kept: &mut Kept,
    tables: &mut LastTables,
    cell: u16,
) -> Result<(i64, Origin), SessionError>
    requires past { IsPast past.now }
    requires uncut { past.now.cut.now ≡ past.now.logs.now }
    requires kept { AreTold (known_by past.now []) kept.old.blocks }
    requires tables { AreOfLast past.now tables.old }
    ensures value { IfOk result
        (λ x. last_by (past_setting past.now) past.now.logs.now cell ≡ Ok x) }
    ensures error { IfErr result
        (IsWhy (unfound (last_by (past_setting past.now) past.now.logs.now cell))) }
    ensures kept { OnOk result (IsAsked (known_by past.now []) (last_block past.now cell) kept.old kept.new) }
    ensures part { OnErr result
        ((kept.new ≡ kept.old) ⊎ IsAsked (known_by past.now []) (last_block past.now cell) kept.old kept.new) }
    ensures tables { AreOfLast past.now tables.new }
{
    let Some(last) = last_edge(past, cell)? else {
        return last_of(alloc, past, cell);
    };
    if last.interval < past.index.count(last.edge.process) {
        return last_kept(alloc, past, kept, tables, cell, last);
    }
    // cannot come for the past of a run: the index has the interval in which each edge ends
    last_of(alloc, past, cell)
}

// ---- texts

fn put_line(
    text: &mut Vec<u8>,
    past: &Past,
    cell: u16,
    found: (i64, Origin),
) -> Result<(), SessionError>
    ensures text { OnOk result (text.new.items ≡ text.old.items ++ last_line past.now.program.now cell found) }
    ensures error { IfErr result (λ e. e ≡ session_error.Memory) }
{
    put_last(text, past.program, cell, found.0, found.1)?;
    Ok(())
}

/// Appends the line of a shared cell.
fn put_cell_line(
    alloc: Global,
    text: &mut Vec<u8>,
    past: &Past,
    kept: &mut Kept,
    tables: &mut LastTables,
    cell: u16,
) -> Result<(), SessionError>
    requires past { IsPast past.now }
    requires uncut { past.now.cut.now ≡ past.now.logs.now }
    requires kept { AreTold (known_by past.now []) kept.old.blocks }
    requires tables { AreOfLast past.now tables.old }
    ensures told { OnOk result
        (IsLineOf past.now.program.now cell
        (last_by (past_setting past.now) past.now.logs.now cell) text.old.items
        text.new.items) }
    ensures error { IfErr result
        (IsWhy (unfound (last_by (past_setting past.now) past.now.logs.now cell))) }
    ensures kept { OnOk result (IsAsked (known_by past.now []) (last_block past.now cell) kept.old kept.new) }
    ensures part { OnErr result
        ((kept.new ≡ kept.old) ⊎ IsAsked (known_by past.now []) (last_block past.now cell) kept.old kept.new) }
    ensures tables { AreOfLast past.now tables.new }
{
    let found = last_of_cell(alloc, past, kept, tables, cell)?;
    put_line(text, past, cell, found)
}

/// Appends a line for each shared cell, with the tables of the block that was asked for last.
fn put_cell_lines(
    alloc: Global,
    text: &mut Vec<u8>,
    past: &Past,
    kept: &mut Kept,
    tables: &mut LastTables,
) -> Result<(), SessionError>
    requires past { IsPast past.now }
    requires uncut { past.now.cut.now ≡ past.now.logs.now }
    requires kept { AreTold (known_by past.now []) kept.old.blocks }
    requires tables { AreOfLast past.now tables.old }
    ensures text { OnOk result
        (text.new.items ≡ text.old.items ++ lasts_text past.now.program.now 0 (known_by past.now []).lasts) }
    ensures told { OnOk result (slice_get (filter_map result_err (known_by past.now []).lasts) 0 ≡ None) }
    ensures error { IfErr result (IsWhy (slice_get (filter_map result_err (known_by past.now []).lasts) 0)) }
    ensures kept { OnOk result (AreAsked (known_by past.now []) (last_blocks past.now) kept.old kept.new) }
    ensures part { OnErr result (AreAskedInPart (known_by past.now []) (last_blocks past.now) kept.old kept.new) }
{
    for cell in 0..past.program.starts.len() {
        put_cell_line(alloc, text, past, kept, tables, cell as u16)?;
    }
    Ok(())
}

/// Appends a line for each shared cell of a past without races.
fn put_lines(
    alloc: Global,
    text: &mut Vec<u8>,
    past: &Past,
    kept: &mut Kept,
) -> Result<(), SessionError>
    requires past { IsPast past.now }
    requires uncut { past.now.cut.now ≡ past.now.logs.now }
    requires kept { AreTold (known_by past.now []) kept.old.blocks }
    ensures text { OnOk result
        (text.new.items ≡ text.old.items ++ lasts_text past.now.program.now 0 (known_by past.now []).lasts) }
    ensures told { OnOk result (slice_get (filter_map result_err (known_by past.now []).lasts) 0 ≡ None) }
    ensures error { IfErr result (IsWhy (slice_get (filter_map result_err (known_by past.now []).lasts) 0)) }
    ensures kept { OnOk result (AreAsked (known_by past.now []) (last_blocks past.now) kept.old kept.new) }
    ensures part { OnErr result (AreAskedInPart (known_by past.now []) (last_blocks past.now) kept.old kept.new) }
{
    let mut tables = LastTables::new();
    let done = put_cell_lines(alloc, text, past, kept, &mut tables);
    drop(tables);
    done
}

/// Appends the last value of each shared cell with the write of it, or how many races there are.
pub(crate) fn put_final(
    alloc: Global,
    text: &mut Vec<u8>,
    past: &Past,
    races: &[Race],
    kept: &mut Kept,
) -> Result<(), SessionError>
    requires { IsSession past.now races.now kept.old }
    ensures text { OnOk result
        (text.new.items
        ≡ text.old.items
        ++ unwrap_or (races_refusal races.now)
        (lasts_text past.now.program.now 0 (known_by past.now races.now).lasts)) }
    ensures told { OnOk result (slice_get (filter_map result_err (known_by past.now races.now).lasts) 0 ≡ None) }
    ensures error { IfErr result (IsWhy (slice_get (filter_map result_err (known_by past.now races.now).lasts) 0)) }
    ensures kept { OnOk result
        (AreAsked (known_by past.now races.now) (unless_raced races.now (last_blocks past.now)) kept.old kept.new) }
    ensures part { OnErr result
        (AreAskedInPart (known_by past.now races.now) (unless_raced races.now (last_blocks past.now))
        kept.old kept.new) }
{
    if !races.is_empty() {
        return put_many_races(text, races);
    }
    put_lines(alloc, text, past, kept)
}
