ghost use Rattle.std.specs.Prelude.{◌≡◌, get_or, pos, []};
ghost use Rattle.ppd_model.specs.HappenedBefore.{edge as edge_of};
ghost use Rattle.ppd_graph.specs.Looked.{look_map};
ghost use Rattle.ppd_graph.specs.Shared.{in_process, written_at, written_in as written_in_edge, written_or_start as written_or_start_of};
ghost use Rattle.ppd_graph.specs.Walk.{walk as walk_from};
ghost use Rattle.ppd_flow_shared.specs.Items.{seen_for};
ghost use Rattle.ppd_flow_shared.specs.SharedCells.{IsAnswerTo, IsMemoryOr, answer_of, seens_in};
ghost use Rattle.ppd_flow_tables.specs.Tabled.{IsTabled};

use crate::edge_end::edge_end;
use crate::search::CellSearch;
use ppd_ast::{Program, Steps};
use ppd_flow_tables::{FlowError, Past, ending, entries_of, number};
use ppd_graph::Walked;
use ppd_model::{EdgeId, Item, Origin};
use std::sync::ledger::Ledger;

// The write that a walk from the end of an edge found, or the entry there whose write set has the cell for nothing.
fn write_found(
    past: &Past,
    cell: u16,
    edge: EdgeId,
    walked: Walked,
) -> Result<(i64, Origin), FlowError>
    ensures { IsMemoryOr (answer_of (written_at past.now.logs.now cell edge walked)) result }
{
    match walked {
        Walked::Found {
            interval,
            item,
            value,
        } => {
            let origin = Origin::Item {
                process: edge.process,
                interval,
                item,
            };
            Ok((value, origin))
        }
        Walked::Stopped | Walked::Passed => {
            let entry = number(ending(edge.edge, entries_of(past.logs, edge.process)))?;
            Err(FlowError::Sets {
                process: edge.process,
                entry,
                cell,
            })
        }
    }
}

/// The last write of the cell in an edge of the process that is searched, which ends at this place among the items
/// of an interval.
pub(crate) fn written_before<L: Ledger>(
    search: &CellSearch,
    edge: u32,
    interval: u32,
    items: &[Item],
    place: usize,
    steps: &mut Steps<L>,
) -> Result<(i64, Origin), FlowError>
    requires past { IsTabled search.now.past.now search.now.tables }
    requires items { items.now ≡ get_or (seen_for search.now).items interval [] }
    ensures { IsAnswerTo search.now.past.now
        (look_map (written_at search.now.past.now.logs.now search.now.cell (edge_of search.now.process edge))
        (in_process search.now.process (walk_from (seen_for search.now) search.now.cell interval place)))
        steps.old steps.new result }
{
    let edge = EdgeId {
        process: search.process,
        edge,
    };
    let walked = search.walk(interval, items, place, steps)?;
    write_found(search.past, search.cell, edge, walked)
}

// The last write of the cell in an edge of any process whose write set has it.
fn written_in<L: Ledger>(
    search: &CellSearch,
    edge: EdgeId,
    steps: &mut Steps<L>,
) -> Result<(i64, Origin), FlowError>
    requires { IsTabled search.now.past.now search.now.tables }
    ensures { IsAnswerTo search.now.past.now
        (written_in_edge search.now.past.now.logs.now (seens_in search.now.past.now) search.now.cell edge)
        steps.old steps.new result }
{
    let end = edge_end(search.alloc, search.past, &search.tables, edge, steps)?;
    let there = CellSearch {
        alloc: search.alloc,
        past: search.past,
        tables: search.tables,
        process: edge.process,
        cell: search.cell,
    };
    written_before(
        &there,
        edge.edge,
        end.interval,
        end.items.as_slice(),
        end.place,
        steps,
    )
}

fn start_value(program: &Program, cell: u16) -> i64
    ensures { result ≡ get_or program.now.starts cell (pos 0) }
{
    match program.starts.get(cell as usize) {
        Some(value) => *value,
        None => 0,
    }
}

/// The last write of the cell in this edge, and its start value where there is none.
pub(crate) fn written_or_start<L: Ledger>(
    search: &CellSearch,
    edge: Option<EdgeId>,
    steps: &mut Steps<L>,
) -> Result<(i64, Origin), FlowError>
    requires { IsTabled search.now.past.now search.now.tables }
    ensures { IsAnswerTo search.now.past.now
        (written_or_start_of search.now.past.now.program.now search.now.past.now.logs.now
        (seens_in search.now.past.now) search.now.cell edge)
        steps.old steps.new result }
{
    match edge {
        Some(edge) => written_in(search, edge, steps),
        None => Ok((
            start_value(search.past.program, search.cell),
            Origin::Initial,
        )),
    }
}
