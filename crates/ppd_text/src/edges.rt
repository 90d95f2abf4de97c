// The line of each flowback edge of an item.
ghost use Rattle.std.specs.Prelude.{◌≡◌, ◌++◌, OnOk, codes, decimal};
ghost use Rattle.std.specs.List.{flat_map};
ghost use Rattle.ppd_text.specs.Edges.{edge_line, edge_word, item_locals as locals_of_item};
ghost use Rattle.ppd_text.specs.Edges.{origin_text, subject_text, why_text};
ghost use Rattle.ppd_text.specs.Names.{at_number};
ghost use Rattle.ppd_text.specs.Plans.{block_locals as locals_of_block};
ghost use Rattle.ppd_text.specs.CellNames.{process_name as process_name_of};

use crate::cell_names::process_name;
use crate::items::{put_access, put_item};
use crate::plans::{block_locals, locals_round};
use crate::text::{put, put_head, put_number, put_value};
use ppd_ast::{Memory, Plan, Program, Var};
use ppd_model::{EdgeKind, FlowEdge, Item, Origin};
use ppd_sem::{Access, Spot};

fn put_place_of(
    text: &mut Vec<u8>,
    program: &Program,
    process: u8,
    interval: u32,
    item: u32,
) -> Result<(), Memory>
    ensures { OnOk result
        (text.new.items
        ≡ text.old.items
        ++ (process_name_of program.now process ++ codes " " ++ decimal interval ++ codes " " ++ decimal item)) }
{
    put(text, process_name(program, process))?;
    put_head(text, b" ", interval as usize)?;
    put_number(text, item)
}

fn put_origin(text: &mut Vec<u8>, program: &Program, origin: Origin) -> Result<(), Memory>
    ensures { OnOk result (text.new.items ≡ text.old.items ++ origin_text program.now origin) }
{
    match origin {
        Origin::Initial => put(text, b"initial"),
        Origin::Entry => put(text, b"entry"),
        Origin::Item {
            process,
            interval,
            item,
        } => put_place_of(text, program, process, interval, item),
    }
}

/// Appends where something came from, and ends the line.
pub(crate) fn put_from(text: &mut Vec<u8>, program: &Program, origin: Origin) -> Result<(), Memory>
    ensures { OnOk result
        (text.new.items ≡ text.old.items ++ (codes " from " ++ origin_text program.now origin ++ codes "\n")) }
{
    put(text, b" from ")?;
    put_origin(text, program, origin)?;
    put(text, b"\n")
}

fn put_word(text: &mut Vec<u8>, kind: EdgeKind) -> Result<(), Memory>
    ensures { OnOk result (text.new.items ≡ text.old.items ++ edge_word kind) }
{
    match kind {
        EdgeKind::Read => put(text, b"read"),
        EdgeKind::Left => put(text, b"left"),
        EdgeKind::Returned => put(text, b"returned"),
        EdgeKind::Sync => put(text, b"sync"),
        EdgeKind::Control => put(text, b"control"),
    }
}

// Appends a value, after the cell that has it, if it is in one.
fn put_told(
    text: &mut Vec<u8>,
    program: &Program,
    locals: &[Var],
    spot: Option<Spot>,
    value: i64,
) -> Result<(), Memory>
    ensures { OnOk result
        (text.new.items ≡ text.old.items ++ subject_text program.now locals.now spot (Some value)) }
{
    match spot {
        None => {
            put(text, b" ")?;
            put_value(text, value)
        }
        Some(spot) => put_access(text, b" ", program, locals, Access { spot, value }),
    }
}

fn put_subject(
    text: &mut Vec<u8>,
    program: &Program,
    locals: &[Var],
    edge: FlowEdge,
) -> Result<(), Memory>
    ensures { OnOk result
        (text.new.items ≡ text.old.items ++ subject_text program.now locals.now edge.spot edge.value) }
{
    match edge.value {
        None => Ok(()),
        Some(value) => put_told(text, program, locals, edge.spot, value),
    }
}

fn put_edge(
    text: &mut Vec<u8>,
    program: &Program,
    locals: &[Var],
    edge: FlowEdge,
) -> Result<(), Memory>
    ensures { OnOk result (text.new.items ≡ text.old.items ++ edge_line program.now locals.now edge) }
{
    put_word(text, edge.kind)?;
    put_subject(text, program, locals, edge)?;
    put_from(text, program, edge.from)
}

/// Appends the lines of edges, in order: what was read, left or returned, with its value, and where it came from; the
/// synchronization that led to this one; and what let the item run. Local cells are of these variables.
fn put_each_edge(
    text: &mut Vec<u8>,
    program: &Program,
    locals: &[Var],
    edges: &[FlowEdge],
) -> Result<(), Memory>
    ensures { OnOk result (text.new.items ≡ text.old.items ++ flat_map (edge_line program.now locals.now) edges.now) }
{
    for edge in edges {
        put_edge(text, program, locals, *edge)?;
    }
    Ok(())
}

fn locals_if<'a>(program: &'a Program, plan: &Plan, block: u16) -> &'a [Var]
    ensures { result.now
        ≡ at_number (λ x. locals_of_block program.now x.kind) plan.now.blocks block }
{
    match plan.blocks.get(block as usize) {
        Some(block) => block_locals(program, block.kind),
        None => &[],
    }
}

// Whose local cells the edges of an item name.
fn item_locals<'a>(program: &'a Program, plan: &Plan, item: &Item) -> &'a [Var]
    ensures { result.now ≡ locals_of_item program.now plan.now item.now }
{
    match item {
        Item::Own(event) => locals_round(program, event.stmt),
        Item::Nested { block, .. } => locals_if(program, plan, *block),
    }
}

/// Appends the line of an item of this number, then the lines of these edges into it: `read CELL=V from REF`,
/// `left CELL=V from REF`, `returned V from REF`, `sync from REF` and `control from REF`, where REF is the process,
/// interval and item, `initial` or `entry`.
pub fn put_why(
    text: &mut Vec<u8>,
    program: &Program,
    plan: &Plan,
    number: usize,
    item: &Item,
    edges: &[FlowEdge],
) -> Result<(), Memory>
    ensures { OnOk result (text.new.items ≡ text.old.items ++ why_text program.now plan.now number item.now edges.now) }
{
    put_item(text, program, plan, number, item)?;
    put_each_edge(text, program, item_locals(program, plan, item), edges)
}
