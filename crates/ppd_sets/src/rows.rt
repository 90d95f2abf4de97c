ghost use Rattle.ppd_ast.specs.Cells.{after, holds};
ghost use Rattle.ppd_ast.specs.Order.{preorder};
ghost use Rattle.ppd_ast.specs.Table.{AreChildrenBelow, EachAt};
ghost use Rattle.ppd_ast.specs.Valid.{IsValid};
ghost use Rattle.ppd_ast.specs.declared.limits.TheConstants.{MOST_NESTING, MOST_SHARED_CELLS};
ghost use Rattle.ppd_ast.specs.Members.{has, those};
ghost use Rattle.ppd_sets.specs.Gained.{HasBoth};
ghost use Rattle.ppd_sets.specs.Used.{AreSmall, call_rows, local_in, reads_at, shared_through, sorted, stmts_at, vars_met, writes_at};
ghost use Rattle.std.specs.List.{flat_map, list_any, range_with_len};
ghost use Rattle.std.specs.Prelude.{IfOk, OnOk, [], false, length, map, true, unwrap_or, ◌++◌, ◌<◌, ◌^◌, ◌∷◌, ◌≡◌, ◌≤◌};

use crate::bodies::{calls, touched_by_bodies, touched_from};
use crate::cell_set::CellSet;
use crate::loops::loop_touched;
use crate::touched::Touched;
use ppd_ast::{Cells, Ids, Memory, Program, Seq, Var};
use std::alloc::Global;

// For each body or statement, by number, what it uses and what it defines.
#[derive(Drop)]
pub(crate) struct Rows {
    pub(crate) used: Seq<Cells>,
    pub(crate) defined: Seq<Cells>,
}

#[derive(Drop)]
struct Row {
    used: Cells,
    defined: Cells,
}

impl Rows {
    fn new(alloc: Global) -> Rows
        ensures used { result.used ≡ [] }
        ensures defined { result.defined ≡ [] }
    {
        Rows {
            used: Seq::new(alloc),
            defined: Seq::new(alloc),
        }
    }

    // Appends what the next body or statement uses and defines.
    fn push(&mut self, row: Row) -> Result<(), Memory>
        ensures used { OnOk result (self.new.used ≡ self.old.used ++ row.used ∷ []) }
        ensures defined { OnOk result (self.new.defined ≡ self.old.defined ++ row.defined ∷ []) }
    {
        self.used.push(row.used)?;
        self.defined.push(row.defined)
    }
}

// How many cells the variable has.
fn size_of(var: &Var) -> u16
    ensures { result ≡ unwrap_or var.now.len 1 }
{
    match var.len {
        None => 1,
        Some(len) => len,
    }
}

/// Whether a cell of the variable is in the set.
pub fn does_meet(set: &CellSet, var: &Var) -> bool
    requires { after var.now ≤ MOST_SHARED_CELLS }
    ensures { result ≡ list_any (λ c. holds c var.now) set.now }
{
    let len = size_of(var);
    for place in 0..len {
        if set.contains(var.base + place) {
            return true;
        }
    }
    false
}

/// The variables of which a cell is in the set, by number, rising. Numbers have 16 bits. `Memory` is want of memory.
pub fn vars_in(alloc: Global, vars: &[Var], set: &CellSet) -> Result<Cells, Memory>
    requires { AreSmall vars.now }
    ensures { IfOk result (λ ids. ids ≡ vars_met vars.now set.now) }
{
    let mut ids = Cells::new(alloc);
    for number in 0..vars.len().min(65_536) {
        if does_meet(set, &vars[number]) {
            ids.push(number as u16)?;
        }
    }
    Ok(ids)
}

// What a body uses and defines, by the calls of the bodies and the cells of their statements.
fn body_row(
    alloc: Global,
    program: &Program,
    calls: &Seq<Ids>,
    list: &Seq<Touched>,
    body: u32,
) -> Result<Row, Memory>
    requires valid { IsValid program.now }
    requires calls { calls.now ≡ call_rows program.now }
    requires long { length list.now ≡ length program.now.bodies }
    requires each { EachAt (λ k t. HasBoth t
        (flat_map (reads_at true program.now) (stmts_at program.now k))
        (flat_map (writes_at true program.now) (stmts_at program.now k))) list.now }
    requires body { body < length program.now.bodies }
    ensures used { IfOk result (λ row. row.used ≡ shared_through program.now (reads_at true program.now) body) }
    ensures defined { IfOk result
        (λ row. row.defined ≡ shared_through program.now (writes_at true program.now) body) }
{
    let touched = touched_from(alloc, program, calls, list, body)?;
    let used = vars_in(alloc, program.shared.as_slice(), &touched.reads)?;
    let defined = vars_in(alloc, program.shared.as_slice(), &touched.writes)?;
    Ok(Row { used, defined })
}

// The same of each body.
fn rows_through(
    alloc: Global,
    program: &Program,
    calls: &Seq<Ids>,
    list: &Seq<Touched>,
) -> Result<Rows, Memory>
    requires valid { IsValid program.now }
    requires count { length program.now.bodies < 2 ^ 32 }
    requires calls { calls.now ≡ call_rows program.now }
    requires long { length list.now ≡ length program.now.bodies }
    requires each { EachAt (λ k t. HasBoth t
        (flat_map (reads_at true program.now) (stmts_at program.now k))
        (flat_map (writes_at true program.now) (stmts_at program.now k))) list.now }
    ensures used { IfOk result
        (λ rows. rows.used ≡ map (shared_through program.now (reads_at true program.now))
        (range_with_len 0 (length program.now.bodies))) }
    ensures defined { IfOk result
        (λ rows. rows.defined ≡ map (shared_through program.now (writes_at true program.now))
        (range_with_len 0 (length program.now.bodies))) }
{
    let mut rows = Rows::new(alloc);
    for body in 0..program.bodies.len() {
        let row = body_row(alloc, program, calls, list, body as u32)?;
        rows.push(row)?;
    }
    Ok(rows)
}

// What each body uses and defines.
pub(crate) fn body_rows(alloc: Global, program: &Program) -> Result<Rows, Memory>
    requires valid { IsValid program.now }
    requires count { length program.now.bodies < 2 ^ 32 }
    ensures used { IfOk result
        (λ rows. rows.used ≡ map (shared_through program.now (reads_at true program.now))
        (range_with_len 0 (length program.now.bodies))) }
    ensures defined { IfOk result
        (λ rows. rows.defined ≡ map (shared_through program.now (writes_at true program.now))
        (range_with_len 0 (length program.now.bodies))) }
{
    let calls = calls(alloc, program)?;
    let list = touched_by_bodies(alloc, program)?;
    rows_through(alloc, program, &calls, &list)
}

// The cells that are read, and those that are written.
fn row_of(alloc: Global, touched: &Touched) -> Result<Row, Memory>
    ensures used { IfOk result (λ row. row.used ≡ those MOST_SHARED_CELLS (has touched.now.reads)) }
    ensures defined { IfOk result (λ row. row.defined ≡ those MOST_SHARED_CELLS (has touched.now.writes)) }
{
    let used = touched.reads.to_list(alloc)?;
    let defined = touched.writes.to_list(alloc)?;
    Ok(Row { used, defined })
}

// What a loop uses and defines.
fn loop_cells(alloc: Global, program: &Program, stmt: u32) -> Result<Row, Memory>
    requires { EachAt AreChildrenBelow program.now.exprs }
    ensures used { IfOk result
        (λ row. row.used ≡ sorted (flat_map (reads_at false program.now)
        (preorder MOST_NESTING program.now.stmts stmt))) }
    ensures defined { IfOk result
        (λ row. row.defined ≡ sorted (flat_map (writes_at false program.now)
        (preorder MOST_NESTING program.now.stmts stmt))) }
{
    let touched = loop_touched(program, stmt);
    row_of(alloc, &touched)
}

// What a loop uses and defines, and nothing for another statement.
fn loop_row(alloc: Global, program: &Program, stmt: u32) -> Result<Row, Memory>
    requires { EachAt AreChildrenBelow program.now.exprs }
    ensures used { IfOk result (λ row. row.used ≡ local_in program.now (reads_at false program.now) stmt) }
    ensures defined { IfOk result (λ row. row.defined ≡ local_in program.now (writes_at false program.now) stmt) }
{
    if program.is_while(stmt) {
        let row = loop_cells(alloc, program, stmt)?;
        return Ok(row);
    }
    Ok(Row {
        used: Cells::new(alloc),
        defined: Cells::new(alloc),
    })
}

// What each loop uses and defines.
pub(crate) fn loop_rows(alloc: Global, program: &Program) -> Result<Rows, Memory>
    requires valid { IsValid program.now }
    requires count { length program.now.stmts < 2 ^ 32 }
    ensures used { IfOk result
        (λ rows. rows.used ≡ map (local_in program.now (reads_at false program.now))
        (range_with_len 0 (length program.now.stmts))) }
    ensures defined { IfOk result
        (λ rows. rows.defined ≡ map (local_in program.now (writes_at false program.now))
        (range_with_len 0 (length program.now.stmts))) }
{
    let mut rows = Rows::new(alloc);
    for stmt in 0..program.stmts.len() {
        let row = loop_row(alloc, program, stmt as u32)?;
        rows.push(row)?;
    }
    Ok(rows)
}
