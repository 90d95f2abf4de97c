// The line of each item of an interval.
ghost use Rattle.std.specs.Prelude.{◌≡◌, ◌++◌, [], OnOk, codes, decimal, if◌then◌else◌, slice_get, zip};
ghost use Rattle.std.specs.Fmt.{signed_decimal};
ghost use Rattle.std.specs.Option.{option_map_or};
ghost use Rattle.std.specs.List.{flat_map};
ghost use Rattle.ppd_text.specs.Items.{access_text, closed_text, event_text, item_line, item_text};
ghost use Rattle.ppd_text.specs.Items.{left_text, outcome_text, spot_text, value_text};
ghost use Rattle.ppd_text.specs.Items.{written_locals as locals_written};
ghost use Rattle.ppd_text.specs.CellNames.{cell_text, trap_word};
ghost use Rattle.ppd_text.specs.Names.{at_number};
ghost use Rattle.ppd_text.specs.Plans.{block_what, lines_of};
ghost use Rattle.ppd_ast.specs.Lookups.{body_numbered};

use crate::cell_names::{put_cell, put_trap, put_what};
use crate::event_kinds::put_event_kind;
use crate::plans::{locals_of, locals_round};
use crate::text::{put, put_equal, put_head, put_number, put_stmt_head, put_value};
use ppd_ast::{Block, BlockKind, Kind, Memory, Plan, Program, Stmt, Trap, Var};
use ppd_model::Item;
use ppd_sem::{Access, Event, Spot};

// ---- cells with their values

fn put_spot(text: &mut Vec<u8>, program: &Program, locals: &[Var], spot: Spot) -> Result<(), Memory>
    ensures { OnOk result (text.new.items ≡ text.old.items ++ spot_text program.now locals.now spot) }
{
    match spot {
        Spot::Local { cell, .. } => put_cell(text, locals, cell),
        Spot::Shared(cell) => put_cell(text, program.shared.as_slice(), cell),
    }
}

/// Appends this word and a cell with the value that was read or written; a local cell is of these variables.
pub fn put_access(
    text: &mut Vec<u8>,
    word: &[u8],
    program: &Program,
    locals: &[Var],
    access: Access,
) -> Result<(), Memory>
    ensures { OnOk result (text.new.items ≡ text.old.items ++ access_text word.now program.now locals.now access) }
{
    put(text, word)?;
    put_spot(text, program, locals, access.spot)?;
    put_equal(text, access.value)
}

/// Appends each of these accesses so.
pub fn put_each_access(
    text: &mut Vec<u8>,
    word: &[u8],
    program: &Program,
    locals: &[Var],
    accesses: &[Access],
) -> Result<(), Memory>
    ensures { OnOk result
        (text.new.items
        ≡ text.old.items ++ flat_map (access_text word.now program.now locals.now) accesses.now) }
{
    for access in accesses {
        put_access(text, word, program, locals, *access)?;
    }
    Ok(())
}

// ---- events

/// Whose locals an event of a statement of this kind in this body writes.
pub fn written_locals<'a>(program: &'a Program, body: u16, kind: &Kind) -> &'a [Var]
    ensures { result.now ≡ locals_written program.now body kind.now }
{
    match kind {
        Kind::Call { function, .. } => locals_of(program, *function),
        _ => locals_of(program, body),
    }
}

// Appends the reads of an event of a statement, then its writes.
fn put_accesses(
    text: &mut Vec<u8>,
    program: &Program,
    event: &Event,
    stmt: &Stmt,
) -> Result<(), Memory>
    ensures { OnOk result
        (text.new.items
        ≡ text.old.items
        ++ (flat_map
        (access_text (codes " read ") program.now (body_numbered program.now stmt.now.body).locals) event.now.reads
        ++ flat_map
        (access_text (codes " write ") program.now (locals_written program.now stmt.now.body stmt.now.kind))
        event.now.writes)) }
{
    let own = locals_of(program, stmt.body);
    let written = written_locals(program, stmt.body, &stmt.kind);
    put_each_access(text, b" read ", program, own, event.reads.as_slice())?;
    put_each_access(text, b" write ", program, written, event.writes.as_slice())
}

fn put_value_if(text: &mut Vec<u8>, value: Option<i64>) -> Result<(), Memory>
    ensures { OnOk result (text.new.items ≡ text.old.items ++ value_text value) }
{
    match value {
        None => Ok(()),
        Some(value) => {
            put(text, b" value ")?;
            put_value(text, value)
        }
    }
}

fn put_number_if(text: &mut Vec<u8>, number: Option<u32>) -> Result<(), Memory>
    ensures { OnOk result
        (text.new.items ≡ text.old.items ++ option_map_or (λ n. codes " number " ++ decimal n) number []) }
{
    match number {
        None => Ok(()),
        Some(number) => {
            put(text, b" number ")?;
            put_number(text, number)
        }
    }
}

fn put_trap_if(text: &mut Vec<u8>, trap: Option<Trap>) -> Result<(), Memory>
    ensures { OnOk result
        (text.new.items ≡ text.old.items ++ option_map_or (λ t. codes " trap " ++ trap_word t) trap []) }
{
    match trap {
        None => Ok(()),
        Some(trap) => {
            put(text, b" trap ")?;
            put_trap(text, trap)
        }
    }
}

/// Appends the value, the number of the synchronization and the trap of an event, where it has them.
pub fn put_outcome(text: &mut Vec<u8>, event: &Event) -> Result<(), Memory>
    ensures { OnOk result (text.new.items ≡ text.old.items ++ outcome_text event.now) }
{
    put_value_if(text, event.value)?;
    put_number_if(text, event.number)?;
    put_trap_if(text, event.trap)
}

// Appends an event of this statement.
fn put_event(
    text: &mut Vec<u8>,
    program: &Program,
    event: &Event,
    stmt: &Stmt,
) -> Result<(), Memory>
    ensures { OnOk result (text.new.items ≡ text.old.items ++ event_text program.now event.now stmt.now) }
{
    put_stmt_head(text, event.stmt, stmt.place)?;
    put_event_kind(text, program, event, &stmt.kind)?;
    put_accesses(text, program, event, stmt)?;
    put_outcome(text, event)
}

fn put_own(text: &mut Vec<u8>, program: &Program, event: &Event) -> Result<(), Memory>
    ensures { OnOk result
        (text.new.items
        ≡ text.old.items
        ++ at_number (event_text program.now event.now) program.now.stmts event.now.stmt) }
{
    match program.stmts.get(event.stmt as usize) {
        Some(stmt) => put_event(text, program, event, stmt),
        None => Ok(()),
    }
}

// ---- intervals directly inside

fn put_left_cell(text: &mut Vec<u8>, locals: &[Var], cell: u16, value: i64) -> Result<(), Memory>
    ensures { OnOk result
        (text.new.items
        ≡ text.old.items ++ (codes " " ++ cell_text locals.now cell ++ codes "=" ++ signed_decimal value)) }
{
    put(text, b" ")?;
    put_cell(text, locals, cell)?;
    put_equal(text, value)
}

fn put_left_cells(
    text: &mut Vec<u8>,
    locals: &[Var],
    cells: &[u16],
    values: &[i64],
) -> Result<(), Memory>
    ensures { OnOk result
        (text.new.items
        ≡ text.old.items
        ++ flat_map (λ x. codes " " ++ cell_text locals.now x.0 ++ codes "=" ++ signed_decimal x.1)
        (zip cells.now values.now)) }
{
    for n in 0..cells.len().min(values.len()) {
        put_left_cell(text, locals, cells[n], values[n])?;
    }
    Ok(())
}

// Appends what a loop with these cells in its postlog left.
fn put_left(text: &mut Vec<u8>, locals: &[Var], cells: &[u16], values: &[i64]) -> Result<(), Memory>
    ensures { OnOk result (text.new.items ≡ text.old.items ++ left_text locals.now cells.now values.now) }
{
    if cells.is_empty() {
        return Ok(());
    }
    put(text, b" left")?;
    put_left_cells(text, locals, cells, values)
}

fn put_returned(text: &mut Vec<u8>, values: &[i64]) -> Result<(), Memory>
    ensures { OnOk result (text.new.items ≡ text.old.items ++ value_text (slice_get values.now 0)) }
{
    match values {
        [] => Ok(()),
        [value, ..] => put_value_if(text, Some(*value)),
    }
}

// Appends what came of a closed interval of this block.
fn put_closed(
    text: &mut Vec<u8>,
    program: &Program,
    block: &Block,
    values: &[i64],
) -> Result<(), Memory>
    ensures { OnOk result
        (text.new.items
        ≡ text.old.items ++ closed_text program.now block.now.kind block.now.postlog values.now) }
{
    match block.kind {
        BlockKind::Loop(stmt) => {
            let locals = locals_round(program, stmt);
            put_left(text, locals, block.postlog.as_slice(), values)
        }
        BlockKind::Function(_) | BlockKind::Process(_) => put_returned(text, values),
    }
}

fn put_closed_if(
    text: &mut Vec<u8>,
    program: &Program,
    plan: &Plan,
    block: u16,
    values: &[i64],
) -> Result<(), Memory>
    ensures { OnOk result
        (text.new.items
        ≡ text.old.items
        ++ at_number (λ x. closed_text program.now x.kind x.postlog values.now) plan.now.blocks block) }
{
    match plan.blocks.get(block as usize) {
        Some(block) => put_closed(text, program, block, values),
        None => Ok(()),
    }
}

// Appends the number and the block of an interval.
fn put_nested(
    text: &mut Vec<u8>,
    program: &Program,
    plan: &Plan,
    interval: u32,
    block: u16,
) -> Result<(), Memory>
    ensures { OnOk result
        (text.new.items
        ≡ text.old.items
        ++ (codes "block " ++ decimal interval ++ codes " "
        ++ at_number (λ x. block_what program.now x.kind) plan.now.blocks block)) }
{
    put_head(text, b"block ", interval as usize)?;
    put_what(text, program, plan, block)
}

// Appends what came of an interval of this block, or that it is unfinished.
fn put_result(
    text: &mut Vec<u8>,
    program: &Program,
    plan: &Plan,
    block: u16,
    values: &[i64],
    closed: bool,
) -> Result<(), Memory>
    ensures { OnOk result
        (text.new.items
        ≡ text.old.items
        ++ (if closed
        then at_number (λ x. closed_text program.now x.kind x.postlog values.now) plan.now.blocks block
        else codes " open")) }
{
    if closed {
        return put_closed_if(text, program, plan, block, values);
    }
    put(text, b" open")
}

// ---- items

fn put_item_text(
    text: &mut Vec<u8>,
    program: &Program,
    plan: &Plan,
    item: &Item,
) -> Result<(), Memory>
    ensures { OnOk result (text.new.items ≡ text.old.items ++ item_text program.now plan.now item.now) }
{
    match item {
        Item::Own(event) => put_own(text, program, event),
        Item::Nested {
            interval,
            block,
            values,
            closed,
        } => {
            put_nested(text, program, plan, *interval, *block)?;
            put_result(text, program, plan, *block, values.as_slice(), *closed)
        }
    }
}

/// Appends the line of an item: of an event `item J stmt S PLACE KIND`, then its reads and writes with their values,
/// its value, the number of its synchronization and its trap; of an interval directly inside `item J block K WHAT`,
/// then what the loop left, the value that the function returned, or that it is unfinished.
pub fn put_item(
    text: &mut Vec<u8>,
    program: &Program,
    plan: &Plan,
    number: usize,
    item: &Item,
) -> Result<(), Memory>
    ensures { OnOk result (text.new.items ≡ text.old.items ++ item_line program.now plan.now number item.now) }
{
    put_head(text, b"item ", number)?;
    put_item_text(text, program, plan, item)?;
    put(text, b"\n")
}

/// Appends the lines of the items of an interval, numbered from 0.
pub fn put_items(
    text: &mut Vec<u8>,
    program: &Program,
    plan: &Plan,
    items: &[Item],
) -> Result<(), Memory>
    ensures { OnOk result (text.new.items ≡ text.old.items ++ lines_of (item_line program.now plan.now) items.now) }
{
    for (number, item) in items.iter().enumerate() {
        put_item(text, program, plan, number, item)?;
    }
    Ok(())
}
