// Functions and processes: their parameters, statements and cells.
ghost use Rattle.std.specs.Prelude.{◌≡◌, if◌then◌else◌, ◌<◌, ◌++◌, [], ◌∷◌, OnOk, IfOk, IfSome, length, drop, map, nat_lt, ◌≤◌, ◌+◌, ◌*◌};
ghost use Rattle.ppd_parse.specs.declared.token.Kind.TheVariants as K;
ghost use Rattle.std.specs.List.{All, flat_map};
ghost use Rattle.ppd_ast.specs.declared.limits.TheConstants.{MOST_LOCAL_CELLS};
ghost use Rattle.ppd_check_names.specs.declared.fault.Limit.TheVariants.{Locals};
ghost use Rattle.ppd_check.specs.Bodies.{Fills, Parametered, WroteHeads};
ghost use Rattle.ppd_check.specs.Endings.{ending};
ghost use Rattle.ppd_check_names.specs.Faults.{first, first_of_both};
ghost use Rattle.ppd_check_names.specs.Holding.{head_at, head_said, IsHeadAt};
ghost use Rattle.ppd_check_names.specs.Names.{innermost};
ghost use Rattle.ppd_check_names.specs.Nodes.{phrase_of, below};
ghost use Rattle.ppd_check_names.specs.Reading.{last, phrase, kind, same_kind, name_at, as_block, as_names, as_token, params};
ghost use Rattle.ppd_check.specs.Sources.{vars, entered};
ghost use Rattle.ppd_check_names.specs.Globals.{past_cells};
ghost use Rattle.ppd_check_names.specs.Cost.{nodes_at, nested_at, plain_at, if_there, total, nested_below, plain_below};
ghost use Rattle.ppd_check_stmts.specs.Writing.{block_at};

use crate::endings::{Closing, Ending, ending_of_rows};
use crate::returns::{from_on, note_body, write_close};
use ppd_ast::limits::MOST_LOCAL_CELLS;
use ppd_ast::{Body, Ids, Memory, Place, Seq, Steps, Stmt, Var};
use ppd_check_names::{
    Cause, Fault, Frame, Level, Limit, Output, Scopes, Site, Source, Variable, after_cells,
    as_short, bytes_of, child_at, children_of, declare, is_name, kind_at, label_at, note_if,
    place_at, rule_of,
};
use ppd_check_stmts::write_block;
use ppd_parse::{Kind, Rule};
use std::alloc::Global;
use std::mem::replace;
use std::sync::ledger::Ledger;

// Opens a body's outermost scope inside others.
fn enter<L: Ledger>(mut scopes: Scopes, steps: &mut Steps<L>) -> Result<Frame, Memory>
    ensures value { IfOk result (λ frame. frame ≡ entered scopes) }
    ensures cost { steps.new ≤ steps.old + 1 }
{
    scopes.open(steps)?;
    let variables = Seq::new(scopes.alloc());
    Ok(Frame {
        scopes,
        variables,
        cells: 0,
        hidden: 0,
    })
}

// The scopes round the innermost.
fn leave(frame: Frame) -> Scopes
    ensures { result ≡ drop 1 frame.scopes }
{
    let mut scopes = frame.scopes;
    scopes.close();
    scopes
}

// Declares the child, where it is a name.
fn declare_name<L: Ledger>(
    source: Source<'_>,
    id: u32,
    k: usize,
    frame: &mut Frame,
    found: &mut Option<Fault>,
    steps: &mut Steps<L>,
) -> Result<(), Memory>
    requires within { id < length source.nodes.now }
    ensures declares { OnOk result (Parametered (if same_kind K.Name (kind (phrase (below source.entry id) k))
        then name_at (below source.entry id) k ∷ [] else []) frame.old frame.new found.old found.new) }
    ensures cost { steps.new ≤ steps.old + 5 }
{
    if !is_name(kind_at(source, id, k)) {
        return Ok(());
    }
    let name = label_at(source, id, k);
    declare(frame, name, None, found, steps)
}

// Declares the names among the children of a node.
fn declare_names<L: Ledger>(
    source: Source<'_>,
    id: u32,
    frame: &mut Frame,
    found: &mut Option<Fault>,
    steps: &mut Steps<L>,
) -> Result<(), Memory>
    requires within { id < length source.nodes.now }
    ensures declares { OnOk result (Parametered (params (below source.entry id)) frame.old frame.new found.old
        found.new) }
    ensures cost { steps.new ≤ steps.old + 6 * plain_below source.entry.nodes.now id + 6 * nested_below
        source.entry.nodes.now id }
{
    for k in 0..children_of(source, id).len() {
        steps.tick();
        declare_name(source, id, k, frame, found, steps)?;
    }
    Ok(())
}

// Declares the parameters that a node says.
fn declare_said<L: Ledger>(
    source: Source<'_>,
    id: u32,
    frame: &mut Frame,
    found: &mut Option<Fault>,
    steps: &mut Steps<L>,
) -> Result<(), Memory>
    requires within { id < length source.nodes.now }
    ensures declares { OnOk result
        (Parametered (as_names (phrase_of source.entry.nodes.now id)) frame.old frame.new found.old found.new) }
    ensures cost { steps.new ≤ steps.old + 6 * plain_at source.entry.nodes.now id }
{
    match rule_of(source, id) {
        Rule::Params => declare_names(source, id, frame, found, steps),
        _ => Ok(()),
    }
}

// Declares the parameters that the children of a node say.
fn declare_all<L: Ledger>(
    source: Source<'_>,
    id: u32,
    frame: &mut Frame,
    found: &mut Option<Fault>,
    steps: &mut Steps<L>,
) -> Result<(), Memory>
    requires within { id < length source.nodes.now }
    ensures declares { OnOk result (Parametered (flat_map as_names (below source.entry id)) frame.old frame.new
        found.old found.new) }
    ensures cost { steps.new ≤ steps.old + 7 * plain_below source.entry.nodes.now id + 7 * nested_below
        source.entry.nodes.now id }
{
    for child in children_of(source, id) {
        steps.tick();
        declare_said(source, *child, frame, found, steps)?;
    }
    Ok(())
}

// Declares the parameters of the function at a node; a process has none.
fn declare_params<L: Ledger>(
    source: Source<'_>,
    id: u32,
    process: bool,
    frame: &mut Frame,
    found: &mut Option<Fault>,
    steps: &mut Steps<L>,
) -> Result<(), Memory>
    requires within { id < length source.nodes.now }
    ensures declares { OnOk result (Parametered (head_said process
        (below source.entry id)).params frame.old frame.new found.old found.new) }
    ensures cost { steps.new ≤ steps.old + 7 * plain_below source.entry.nodes.now id + 7 * nested_below
        source.entry.nodes.now id }
{
    if process {
        return Ok(());
    }
    declare_all(source, id, frame, found, steps)
}

// Whether the function at a node gives a value; a process gives none.
fn gives_at(source: Source<'_>, id: u32, process: bool) -> bool
    requires within { id < length source.nodes.now }
    ensures { result ≡ (head_said process (below source.entry id)).gives }
{
    !process && matches!(kind_at(source, id, 0), Kind::IntWord)
}

// The node of the block of a function or a process.
fn block_of(source: Source<'_>, id: u32) -> Option<u32>
    requires within { id < length source.nodes.now }
    ensures said { as_block (last (below source.entry id)) ≡ block_at source.entry.nodes.now result }
    ensures within { IfSome result (λ block. block < length source.entry.nodes.now) }
    ensures nodes { if_there (nested_at source.entry.nodes.now) result ≤ nested_below source.entry.nodes.now id }
{
    let count = children_of(source, id).len();
    child_at(source, id, count.saturating_sub(1))
}

// The place of the last child, where it is a token.
fn last_place(source: Source<'_>, id: u32) -> Place
    requires within { id < length source.nodes.now }
    ensures { result ≡ (as_token (last (below source.entry id))).place }
{
    let count = children_of(source, id).len();
    place_at(source, id, count.saturating_sub(1))
}

// The place of the closing brace of the block that a node is.
fn close_at(source: Source<'_>, id: u32) -> Place
    requires within { id < length source.nodes.now }
    ensures { result ≡ (as_block (phrase_of source.entry.nodes.now id)).close }
{
    match rule_of(source, id) {
        Rule::Block => last_place(source, id),
        _ => Place { line: 0, column: 0 },
    }
}

// That of a block that may be missing.
fn close_of(source: Source<'_>, block: Option<u32>) -> Place
    requires within { IfSome block (λ block. block < length source.nodes.now) }
    ensures { result ≡ (block_at source.entry.nodes.now block).close }
{
    match block {
        None => Place { line: 0, column: 0 },
        Some(block) => close_at(source, block),
    }
}

// How the statements of the block that a node is end.
fn ending_at<L: Ledger>(source: Source<'_>, id: u32, steps: &mut Steps<L>) -> Ending
    requires within { id < length source.nodes.now }
    ensures ending { result ≡ ending (as_block (phrase_of source.entry.nodes.now id)).row }
    ensures cost { steps.new ≤ steps.old + 2 * nested_at source.entry.nodes.now id }
{
    match rule_of(source, id) {
        Rule::Block => ending_of_rows(source, id, steps),
        _ => Ending::Empty,
    }
}

// How those of a block that may be missing end.
fn ending_of<L: Ledger>(source: Source<'_>, block: Option<u32>, steps: &mut Steps<L>) -> Ending
    requires within { IfSome block (λ block. block < length source.nodes.now) }
    ensures ending { result ≡ ending (block_at source.entry.nodes.now block).row }
    ensures cost { steps.new ≤ steps.old + 2 * if_there (nested_at source.entry.nodes.now) block }
{
    match block {
        None => Ending::Empty,
        Some(block) => ending_at(source, block, steps),
    }
}

// The statements of a function or a process, through its closing brace; the rules that its returns break are noted.
fn fill<L: Ledger>(
    level: Level<'_>,
    id: u32,
    process: bool,
    frame: &mut Frame,
    out: &mut Output,
    steps: &mut Steps<L>,
) -> Result<(), Memory>
    requires within { id < length level.source.nodes.now }
    ensures filled { OnOk result (Fills level.entry.site (head_said process
        (below level.entry.source id)) frame.old frame.new out.old out.new) }
    ensures cost { steps.new ≤ steps.old + 9 * plain_below level.entry.source.nodes.now id + 59 * nested_below
        level.entry.source.nodes.now id + length frame.old.variables + 2 }
{
    let block = block_of(level.source, id);
    let start = out.table.stmts.len();
    write_block(level, block, frame, out, steps)?;
    let ending = ending_of(level.source, block, steps);
    let close = close_of(level.source, block);
    let closing = Closing { ending, close };
    let gives = gives_at(level.source, id, process);
    let inside = from_on(out.table.stmts.as_slice(), start);
    note_body(inside, closing, process, gives, &mut out.table.found, steps);
    write_close(level.site, process, closing, out, steps)
}

// Whether so many cells are more than a body may have.
fn is_past(cells: u16) -> bool
    ensures { result ≡ nat_lt MOST_LOCAL_CELLS cells }
{
    MOST_LOCAL_CELLS < usize::from(cells)
}

// Notes the variables with a cell past the most that a body may have.
fn note_cells<L: Ledger>(variables: &[Variable], found: &mut Option<Fault>, steps: &mut Steps<L>)
    ensures faults { found.new ≡ first_of_both found.old (first
        (past_cells MOST_LOCAL_CELLS Locals 0 variables.now)) }
    ensures cost { steps.new ≤ steps.old + length variables.now }
{
    let mut cells = 0;
    for variable in variables {
        steps.tick();
        cells = after_cells(cells, variable.length);
        note_if(
            found,
            is_past(cells),
            variable.place,
            Cause::TooMany(Limit::Locals),
        );
    }
}

// One more variable, which has this first cell.
fn push_var<L: Ledger>(
    alloc: Global,
    variable: &Variable,
    base: u16,
    list: &mut Seq<Var>,
    steps: &mut Steps<L>,
) -> Result<(), Memory>
    ensures pushed { OnOk result
        (list.new ≡ list.old ++ record { name = variable.now.name; base = base; len = variable.now.length } ∷ []) }
    ensures cost { steps.new ≤ steps.old + 2 }
{
    let name = bytes_of(alloc, variable.name.as_slice(), steps)?;
    steps.tick();
    list.push(Var {
        name,
        base,
        len: variable.length,
    })
}

// Puts the variables with their first cells into a list that has none yet.
fn write_vars<L: Ledger>(
    alloc: Global,
    variables: &[Variable],
    list: &mut Seq<Var>,
    steps: &mut Steps<L>,
) -> Result<(), Memory>
    requires none { list.old ≡ [] }
    ensures value { OnOk result (list.new ≡ vars 0 variables.now) }
    ensures cost { steps.new ≤ steps.old + 3 * length variables.now }
{
    let mut base = 0;
    for variable in variables {
        steps.tick();
        push_var(alloc, variable, base, list, steps)?;
        base = after_cells(base, variable.length);
    }
    Ok(())
}

/// The variables with their first cells, of which the first is 0. `Memory` is want of memory.
pub fn vars_of<L: Ledger>(
    alloc: Global,
    variables: &[Variable],
    steps: &mut Steps<L>,
) -> Result<Seq<Var>, Memory>
    ensures value { IfOk result (λ list. list ≡ vars 0 variables.now) }
    ensures cost { steps.new ≤ steps.old + 3 * length variables.now }
{
    let mut list = Seq::new(alloc);
    write_vars(alloc, variables, &mut list, steps)?;
    Ok(list)
}

// How many statements there are.
fn count_of(stmts: &Seq<Stmt>) -> Result<u32, Memory>
    ensures { IfOk result (λ count. count ≡ length stmts.now) }
{
    u32::try_from(stmts.len()).map_err(|_| Memory)
}

/// The functions of a source, or its processes.
#[derive(Clone, Copy)]
pub struct Heads<'a> {
    pub source: Source<'a>,
    pub process: bool,
}

// What the entry of a body says beside what stands in its frame and its row.
#[derive(Clone, Copy)]
struct Heading<'a> {
    name: &'a [u8],
    process: bool,
    params: u16,
    value: bool,
    first: u32,
}

// One more entry, of the body that has this frame and whose row this is; the row is empty then.
fn push_body<L: Ledger>(
    head: Heading<'_>,
    end: u32,
    frame: &Frame,
    row: &mut Ids,
    bodies: &mut Seq<Body>,
    steps: &mut Steps<L>,
) -> Result<(), Memory>
    ensures pushed { OnOk result
        (bodies.new ≡ bodies.old
        ++ record {
          name = head.entry.name.now;
          process = head.entry.process;
          params = head.entry.params;
          value = head.entry.value;
          cells = frame.now.cells;
          locals = vars 0 frame.now.variables;
          top = row.old;
          first = head.entry.first;
          end = end;
        } ∷ []) }
    ensures cost { steps.new ≤ steps.old + 3 * length frame.now.variables + 2 }
{
    let alloc = frame.scopes.alloc();
    let locals = vars_of(alloc, frame.variables.as_slice(), steps)?;
    let name = bytes_of(alloc, head.name, steps)?;
    let top = replace(row, Ids::new(alloc));
    steps.tick();
    bodies.push(Body {
        name,
        process: head.process,
        params: head.params,
        value: head.value,
        cells: frame.cells,
        locals,
        top,
        first: head.first,
        end,
    })
}

// The entry of a body whose statements stand in the table, and the fault of its cells.
fn close_body<L: Ledger>(
    head: Heading<'_>,
    frame: &Frame,
    out: &mut Output,
    bodies: &mut Seq<Body>,
    steps: &mut Steps<L>,
) -> Result<(), Memory>
    ensures table { out.new.table ≡ record out.old.table {
      found = first_of_both out.old.table.found (first (past_cells MOST_LOCAL_CELLS Locals 0 frame.now.variables));
    } }
    ensures pushed { OnOk result
        (bodies.new ≡ bodies.old
        ++ record {
          name = head.entry.name.now;
          process = head.entry.process;
          params = head.entry.params;
          value = head.entry.value;
          cells = frame.now.cells;
          locals = vars 0 frame.now.variables;
          top = out.old.row;
          first = head.entry.first;
          end = length out.old.table.stmts;
        } ∷ []) }
    ensures cost { steps.new ≤ steps.old + 4 * length frame.now.variables + 2 }
{
    note_cells(frame.variables.as_slice(), &mut out.table.found, steps);
    let end = count_of(&out.table.stmts)?;
    push_body(head, end, frame, &mut out.row, bodies, steps)
}

// The function or process at a node, in a frame that has nothing yet: its statements with their expressions, its
// entry, and the rules that it breaks. The scopes round the frame's are that of the source alone, and are as before.
fn write_body<L: Ledger>(
    heads: Heads<'_>,
    id: u32,
    frame: &mut Frame,
    out: &mut Output,
    bodies: &mut Seq<Body>,
    steps: &mut Steps<L>,
) -> Result<(), Memory>
    requires within { id < length heads.source.nodes.now }
    requires entered { frame.old ≡ entered (drop 1 frame.old.scopes) }
    requires one { drop 1 frame.old.scopes ≡ innermost (drop 1 frame.old.scopes) ∷ [] }
    ensures scopes { OnOk result (drop 1 frame.new.scopes ≡ drop 1 frame.old.scopes) }
    ensures wrote { OnOk result (WroteHeads (innermost (drop 1 frame.old.scopes)) (head_said heads.entry.process
        (below heads.entry.source id) ∷ []) out.old.table out.new.table bodies.old bodies.new) }
    ensures cost { steps.new + 1 ≤ steps.old + 112 * nodes_at heads.entry.source.nodes.now id }
{
    let source = heads.source;
    let process = heads.process;
    let first = count_of(&out.table.stmts)?;
    let level = Level {
        source,
        site: Site {
            body: as_short(bodies.len() as u64),
            parent: None,
        },
    };
    declare_params(source, id, process, frame, &mut out.table.found, steps)?;
    let params = as_short(frame.variables.len() as u64);
    out.row = Ids::new(frame.scopes.alloc());
    fill(level, id, process, frame, out, steps)?;
    let head = Heading {
        name: label_at(source, id, 1).text,
        process,
        params,
        value: gives_at(source, id, process),
        first,
    };
    close_body(head, frame, out, bodies, steps)
}

// The same inside scopes, which are given back.
fn write_head<L: Ledger>(
    heads: Heads<'_>,
    id: u32,
    scopes: Scopes,
    out: &mut Output,
    bodies: &mut Seq<Body>,
    steps: &mut Steps<L>,
) -> Result<Scopes, Memory>
    requires within { id < length heads.source.nodes.now }
    requires one { scopes ≡ innermost scopes ∷ [] }
    ensures scopes { IfOk result (λ after. after ≡ scopes) }
    ensures wrote { OnOk result (WroteHeads (innermost scopes) (head_said heads.entry.process
        (below heads.entry.source id) ∷ []) out.old.table out.new.table bodies.old bodies.new) }
    ensures cost { steps.new ≤ steps.old + 112 * nodes_at heads.entry.source.nodes.now id }
{
    let mut frame = enter(scopes, steps)?;
    write_body(heads, id, &mut frame, out, bodies, steps)?;
    Ok(leave(frame))
}

/// Writes the functions or the processes at nodes into the table, with their entries; the first rule that they break
/// is kept. `Memory` is want of memory, or of numbers.
pub fn write_heads<L: Ledger>(
    heads: Heads<'_>,
    ids: &[u32],
    mut scopes: Scopes,
    out: &mut Output,
    bodies: &mut Seq<Body>,
    steps: &mut Steps<L>,
) -> Result<Scopes, Memory>
    requires heads { All (IsHeadAt heads.source.nodes.now heads.process) ids.now }
    requires one { scopes ≡ innermost scopes ∷ [] }
    ensures scopes { IfOk result (λ after. after ≡ scopes) }
    ensures wrote { OnOk result (WroteHeads (innermost scopes) (map (head_at heads.entry.source.nodes.now) ids.now)
        out.old.table out.new.table bodies.old bodies.new) }
    ensures cost { steps.new ≤ steps.old + 113 * total (nodes_at heads.entry.source.nodes.now) ids.now }
{
    for id in ids {
        steps.tick();
        scopes = write_head(heads, *id, scopes, out, bodies, steps)?;
    }
    Ok(scopes)
}
