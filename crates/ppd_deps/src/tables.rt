// What the search for static edges is given: successors, bodies that run, and what is read.
ghost use Rattle.ppd_sets.specs.Used.{reads_at, writes_at};
ghost use Rattle.std.specs.Prelude.{◌≡◌, ◌-◌, ◌<◌, ◌^◌, ◌++◌, ◌∷◌, [], length, true, false, IfOk, OnOk};
ghost use Rattle.std.specs.List.{range_with_len};
ghost use Rattle.ppd_ast.specs.Valid.{IsValid};
ghost use Rattle.ppd_ast.specs.Members.{has};
ghost use Rattle.ppd_sets.specs.Flow.{next_of};
ghost use Rattle.ppd_sets.specs.SetsOf.{AreSetsOf};
ghost use Rattle.ppd_deps.specs.Named.{running, shared_reads, own_vars};
ghost use Rattle.ppd_deps.specs.Tables.{AreTables};

use crate::vars::{body_at, locals, read_cells, vars_of, written_cells};
use ppd_ast::{Cells, Ids, Memory, Program, Seq};
use ppd_sets::{VarSets, calls, reached, successors_of, vars_in};
use std::alloc::Global;

// For each statement its successors, the shared and the local variables that it may read, and the
// local ones that are written there; and the bodies that run.
#[derive(Drop)]
pub(crate) struct Tables {
    pub(crate) next: Seq<Ids>,
    pub(crate) running: Ids,
    pub(crate) shared: Seq<Cells>,
    pub(crate) local: Seq<Cells>,
    pub(crate) written: Seq<Cells>,
}

// What the tables have for one statement.
#[derive(Drop)]
struct Row {
    next: Ids,
    shared: Cells,
    local: Cells,
    written: Cells,
}

// The local variables of its body that a statement may read, and those that are written there.
#[derive(Drop)]
struct Locals {
    read: Cells,
    written: Cells,
}

impl Tables {
    // Appends what there is for the next statement.
    fn push(&mut self, row: Row) -> Result<(), Memory>
        ensures next { OnOk result (self.new.next ≡ self.old.next ++ row.next ∷ []) }
        ensures running { OnOk result (self.new.running ≡ self.old.running) }
        ensures shared { OnOk result (self.new.shared ≡ self.old.shared ++ row.shared ∷ []) }
        ensures local { OnOk result (self.new.local ≡ self.old.local ++ row.local ∷ []) }
        ensures written { OnOk result (self.new.written ≡ self.old.written ++ row.written ∷ []) }
    {
        self.next.push(row.next)?;
        self.shared.push(row.shared)?;
        self.local.push(row.local)?;
        self.written.push(row.written)
    }

    // The successors of a statement.
    pub(crate) fn next_at(&self, program: &Program, stmt: u32) -> &[u32]
        requires tables { AreTables program.now self.now }
        requires there { stmt < length program.now.stmts }
        ensures { result.now ≡ next_of program.now stmt }
    {
        self.next.as_slice()[stmt as usize].as_slice()
    }

    // Whether a statement may read the shared variable.
    pub(crate) fn reads_shared(&self, program: &Program, stmt: u32, var: u16) -> bool
        requires tables { AreTables program.now self.now }
        requires there { stmt < length program.now.stmts }
        ensures { result ≡ has (shared_reads program.now stmt) var }
    {
        self.shared.as_slice()[stmt as usize]
            .as_slice()
            .contains(&var)
    }

    // Whether a statement may read the local variable of its body.
    pub(crate) fn reads_local(&self, program: &Program, stmt: u32, var: u16) -> bool
        requires tables { AreTables program.now self.now }
        requires there { stmt < length program.now.stmts }
        ensures { result ≡ has (own_vars program.now (reads_at false program.now) stmt) var }
    {
        self.local.as_slice()[stmt as usize]
            .as_slice()
            .contains(&var)
    }

    // Whether the local variable of its body is written at a statement.
    pub(crate) fn writes_local(&self, program: &Program, stmt: u32, var: u16) -> bool
        requires tables { AreTables program.now self.now }
        requires there { stmt < length program.now.stmts }
        ensures { result ≡ has (own_vars program.now (writes_at false program.now) stmt) var }
    {
        self.written.as_slice()[stmt as usize]
            .as_slice()
            .contains(&var)
    }
}

fn process_numbers(alloc: Global, program: &Program) -> Result<Ids, Memory>
    requires { length program.now.bodies < 2 ^ 32 }
    ensures { IfOk result
        (λ ids. ids ≡ range_with_len program.now.functions (length program.now.bodies - program.now.functions)) }
{
    let mut ids = Ids::new(alloc);
    for body in program.functions as usize..program.bodies.len() {
        ids.push(body as u32)?;
    }
    Ok(ids)
}

// The bodies that a chain of calls reaches from a process.
fn running_bodies(alloc: Global, program: &Program) -> Result<Ids, Memory>
    requires { IsValid program.now }
    ensures { IfOk result (λ ids. ids ≡ running program.now) }
{
    let rows = calls(alloc, program)?;
    let starts = process_numbers(alloc, program)?;
    let ids = reached(alloc, rows.as_slice(), starts.as_slice())?;
    Ok(ids)
}

// The shared variables that a statement may read: they are among those that its body uses.
fn shared_row(alloc: Global, program: &Program, sets: &VarSets, stmt: u32) -> Result<Cells, Memory>
    requires valid { IsValid program.now }
    requires sets { AreSetsOf program.now sets.now }
    requires there { stmt < length program.now.stmts }
    ensures { IfOk result (λ ids. ids ≡ shared_reads program.now stmt) }
{
    let cells = read_cells(program, true, stmt);
    let used = sets.used(body_at(program, stmt));
    let ids = vars_of(alloc, used, program.shared.as_slice(), &cells)?;
    Ok(ids)
}

// The local variables of its body that a statement may read.
fn local_row(alloc: Global, program: &Program, stmt: u32) -> Result<Cells, Memory>
    requires { IsValid program.now }
    ensures { IfOk result (λ ids. ids ≡ own_vars program.now (reads_at false program.now) stmt) }
{
    let cells = read_cells(program, false, stmt);
    let ids = vars_in(alloc, locals(program, body_at(program, stmt)), &cells)?;
    Ok(ids)
}

// The local variables of its body that are written at a statement.
fn written_row(alloc: Global, program: &Program, stmt: u32) -> Result<Cells, Memory>
    requires { IsValid program.now }
    ensures { IfOk result (λ ids. ids ≡ own_vars program.now (writes_at false program.now) stmt) }
{
    let cells = written_cells(program, false, stmt);
    let ids = vars_in(alloc, locals(program, body_at(program, stmt)), &cells)?;
    Ok(ids)
}

// The local variables of its body that a statement may read, and those that are written there.
fn locals_at(alloc: Global, program: &Program, stmt: u32) -> Result<Locals, Memory>
    requires { IsValid program.now }
    ensures read { IfOk result
        (λ found. found.read ≡ own_vars program.now (reads_at false program.now) stmt) }
    ensures written { IfOk result
        (λ found. found.written ≡ own_vars program.now (writes_at false program.now) stmt) }
{
    let read = local_row(alloc, program, stmt)?;
    let written = written_row(alloc, program, stmt)?;
    Ok(Locals { read, written })
}

// What the tables have for the statement.
fn row_of(alloc: Global, program: &Program, sets: &VarSets, stmt: u32) -> Result<Row, Memory>
    requires valid { IsValid program.now }
    requires sets { AreSetsOf program.now sets.now }
    requires there { stmt < length program.now.stmts }
    ensures next { IfOk result (λ row. row.next ≡ next_of program.now stmt) }
    ensures shared { IfOk result (λ row. row.shared ≡ shared_reads program.now stmt) }
    ensures local { IfOk result
        (λ row. row.local ≡ own_vars program.now (reads_at false program.now) stmt) }
    ensures written { IfOk result
        (λ row. row.written ≡ own_vars program.now (writes_at false program.now) stmt) }
{
    let next = successors_of(alloc, program, stmt)?;
    let shared = shared_row(alloc, program, sets, stmt)?;
    let locals = locals_at(alloc, program, stmt)?;
    Ok(Row {
        next,
        shared,
        local: locals.read,
        written: locals.written,
    })
}

pub(crate) fn tables_of(alloc: Global, program: &Program, sets: &VarSets) -> Result<Tables, Memory>
    requires valid { IsValid program.now }
    requires sets { AreSetsOf program.now sets.now }
    ensures { IfOk result (λ t. AreTables program.now t) }
{
    let running = running_bodies(alloc, program)?;
    let mut tables = Tables {
        next: Seq::new(alloc),
        running,
        shared: Seq::new(alloc),
        local: Seq::new(alloc),
        written: Seq::new(alloc),
    };
    for number in 0..program.stmts.len() {
        let row = row_of(alloc, program, sets, number as u32)?;
        tables.push(row)?;
    }
    Ok(tables)
}
