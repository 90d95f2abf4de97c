// The paths of a local variable's values.
ghost use Rattle.std.specs.Prelude.{◌≡◌, ◌<◌, ◌^◌, ◌&&◌, ℕ, nat_eq, nat_lt, not, [], ◌∷◌, length, slice_get, None, IfOk, if◌then◌else◌, option_to_list, false};
ghost use Rattle.std.specs.List.{filter, flat_map};
ghost use Rattle.ppd_ast.specs.Numbered.{numbers_of};
ghost use Rattle.ppd_ast.specs.Valid.{IsValid};
ghost use Rattle.ppd_ast.specs.Members.{has, AreBelow};
ghost use Rattle.ppd_ast.specs.Lookups.{kind_of, body_of, body_numbered};
ghost use Rattle.ppd_sets.specs.Flow.{next_of};
ghost use Rattle.ppd_sets.specs.Reach.{closure, leads};
ghost use Rattle.ppd_sets.specs.WorkList.{is_marked};
ghost use Rattle.ppd_deps.specs.Edges.{begins, ends_paths, kept_rows, scalar_written};
ghost use Rattle.ppd_deps.specs.Named.{calls, places, own_vars};
ghost use Rattle.ppd_deps.specs.Tables.{AreTables};
ghost use Rattle.ppd_sets.specs.Used.{stmts_at, writes_at};

use crate::tables::Tables;
use crate::vars::{does_call, locals, params};
use ppd_ast::{Body, Ids, Kind, Memory, Program, Seq, Target, Var};
use ppd_sets::{end_of, reach};
use std::alloc::Global;

// A local variable of a body, by their numbers.
#[derive(Clone, Copy)]
pub(crate) struct Local {
    pub(crate) body: u16,
    pub(crate) var: u16,
}

// A statement, and the places in the body of a variable where it writes.
#[derive(Drop)]
pub(crate) struct Writer {
    pub(crate) stmt: u32,
    pub(crate) places: Ids,
}

// The local scalar's cell that a statement of this kind writes.
fn written_scalar(kind: &Kind) -> Option<u16>
    ensures { result ≡ scalar_written kind.now }
{
    match kind {
        Kind::Set(Target::Local(cell), _) => Some(*cell),
        Kind::Call { into, .. } => *into,
        Kind::Recv(_, into) => Some(*into),
        _ => None,
    }
}

// Whether a statement of this kind ends the paths of the variable: that is a scalar, and is written.
fn does_end(vars: &[Var], number: u16, kind: &Kind) -> bool
    ensures { result ≡ ends_paths (slice_get vars.now number) kind.now }
{
    match vars.get(number as usize) {
        None => false,
        Some(var) => match written_scalar(kind) {
            None => false,
            Some(cell) => var.len.is_none() && cell == var.base,
        },
    }
}

// Whether a value of the variable is still there behind the statement.
fn is_kept(program: &Program, local: Local, stmt: u32) -> bool
    requires { stmt < length program.now.stmts }
    ensures { result
        ≡ (nat_eq (body_of program.now stmt) local.body
        && not (ends_paths
        (slice_get (body_numbered program.now local.body).locals local.var) (kind_of program.now stmt))) }
{
    let found = &program.stmts.as_slice()[stmt as usize];
    found.body == local.body && !does_end(locals(program, local.body), local.var, &found.kind)
}

fn copy(alloc: Global, ids: &[u32]) -> Result<Ids, Memory>
    ensures { IfOk result (λ copied. copied ≡ ids.now) }
{
    Ok(Ids::from_vec(ids.to_vec(alloc)?))
}

// The successors of the statement along which a value of the variable is still there.
fn kept_row(
    alloc: Global,
    program: &Program,
    tables: &Tables,
    local: Local,
    stmt: u32,
) -> Result<Ids, Memory>
    requires tables { AreTables program.now tables.now }
    requires there { stmt < length program.now.stmts }
    ensures { IfOk result
        (λ ids. ids ≡ (if nat_eq (body_of program.now stmt) local.body
        && not (ends_paths
        (slice_get (body_numbered program.now local.body).locals local.var) (kind_of program.now stmt))
        then next_of program.now stmt else [])) }
{
    if is_kept(program, local, stmt) {
        return copy(alloc, tables.next_at(program, stmt));
    }
    Ok(Ids::new(alloc))
}

fn kept_rows(
    alloc: Global,
    program: &Program,
    tables: &Tables,
    local: Local,
) -> Result<Seq<Ids>, Memory>
    requires tables { AreTables program.now tables.now }
    requires count { length program.now.stmts < 2 ^ 32 }
    ensures { IfOk result
        (λ rows. rows
        ≡ kept_rows program.now local.body
        (slice_get (body_numbered program.now local.body).locals local.var)) }
{
    let mut rows = Seq::new(alloc);
    for stmt in 0..program.stmts.len() {
        let row = kept_row(alloc, program, tables, local, stmt as u32)?;
        rows.push(row)?;
    }
    Ok(rows)
}

// The first statement of the body.
fn entry(alloc: Global, program: &Program, body: u16) -> Result<Ids, Memory>
    ensures { IfOk result (λ ids. ids ≡ option_to_list (slice_get (body_numbered program.now body).top 0)) }
{
    let mut ids = Ids::new(alloc);
    if let Some(found) = program.body(body) {
        if let Some(first) = found.top.as_slice().first() {
            ids.push(*first)?;
        }
    }
    Ok(ids)
}

// Whether the statement calls the body, of which the variable is a parameter.
fn does_pass(program: &Program, local: Local, stmt: u32) -> bool
    ensures { result
        ≡ (calls program.now stmt local.body
        && nat_lt local.var (body_numbered program.now local.body).params) }
{
    does_call(program, stmt, local.body) && local.var < params(program, local.body)
}

// Where the paths of what a statement writes to the variable begin, by the places where it writes.
fn begins_at(
    alloc: Global,
    program: &Program,
    tables: &Tables,
    local: Local,
    places: &[u32],
) -> Result<Ids, Memory>
    requires tables { AreTables program.now tables.now }
    requires there { AreBelow (length program.now.stmts) places.now }
    ensures { IfOk result
        (λ ids. ids ≡ flat_map (next_of program.now)
        (filter (λ c. has (own_vars program.now (writes_at false program.now) c) local.var) places.now)) }
{
    let mut starts = Ids::new(alloc);
    for place in places {
        if tables.writes_local(program, *place, local.var) {
            let next = copy(alloc, tables.next_at(program, *place))?;
            starts.append(next.into_vec())?;
        }
    }
    Ok(starts)
}

// Where the paths of what a statement writes to the variable begin.
pub(crate) fn begins(
    alloc: Global,
    program: &Program,
    tables: &Tables,
    local: Local,
    writer: &Writer,
) -> Result<Ids, Memory>
    requires tables { AreTables program.now tables.now }
    requires places { writer.now.places ≡ places program.now local.body writer.now.stmt }
    requires there { AreBelow (length program.now.stmts) writer.now.places }
    ensures { IfOk result (λ ids. ids ≡ begins program.now local.body writer.now.stmt local.var) }
{
    let mut starts = begins_at(alloc, program, tables, local, writer.places.as_slice())?;
    if does_pass(program, local, writer.stmt) {
        let first = entry(alloc, program, local.body)?;
        starts.append(first.into_vec())?;
    }
    Ok(starts)
}

// The calls of the function among the body's statements.
fn calls_in(alloc: Global, program: &Program, function: u16, body: &Body) -> Result<Ids, Memory>
    ensures { IfOk result
        (λ ids. ids ≡ filter (λ c. calls program.now c function) (numbers_of program.now.stmts body.now)) }
{
    let mut ids = Ids::new(alloc);
    for stmt in body.first..end_of(program.stmts.as_slice(), body) {
        if does_call(program, stmt, function) {
            ids.push(stmt)?;
        }
    }
    Ok(ids)
}

// The same of the body with this number.
fn calls_at(alloc: Global, program: &Program, function: u16, body: u16) -> Result<Ids, Memory>
    ensures { IfOk result (λ ids. ids ≡ filter (λ c. calls program.now c function) (stmts_at program.now body)) }
{
    match program.body(body) {
        None => Ok(Ids::new(alloc)),
        Some(found) => calls_in(alloc, program, function, found),
    }
}

// The number, if it is wanted.
fn one_if(alloc: Global, is_wanted: bool, number: u32) -> Result<Ids, Memory>
    ensures { IfOk result (λ ids. ids ≡ (if is_wanted then number ∷ [] else [])) }
{
    let mut ids = Ids::new(alloc);
    if is_wanted {
        ids.push(number)?;
    }
    Ok(ids)
}

// The statements of the body at which a statement writes local variables.
pub(crate) fn places(alloc: Global, program: &Program, stmt: u32, body: u16) -> Result<Ids, Memory>
    requires { stmt < length program.now.stmts }
    ensures places { IfOk result (λ ids. ids ≡ places program.now body stmt) }
    ensures there { IfOk result (λ ids. AreBelow (length program.now.stmts) ids) }
{
    let found = &program.stmts.as_slice()[stmt as usize];
    match &found.kind {
        Kind::Call { .. } => Ok(Ids::new(alloc)),
        Kind::Return(_) => calls_at(alloc, program, found.body, body),
        _ => one_if(alloc, found.body == body, stmt),
    }
}

// A mark for each statement: whether what this one writes to the variable may come there.
pub(crate) fn arrivals(
    alloc: Global,
    program: &Program,
    tables: &Tables,
    local: Local,
    starts: &[u32],
) -> Result<Vec<bool>, Memory>
    requires valid { IsValid program.now }
    requires tables { AreTables program.now tables.now }
    requires starts { AreBelow (length program.now.stmts) starts.now }
    ensures long { IfOk result (λ marks. length marks.items ≡ length program.now.stmts) }
    ensures reached { IfOk result
        (λ marks. (t : ℕ)
        → is_marked marks.items t
        ≡ leads (closure
        (kept_rows program.now local.body
        (slice_get (body_numbered program.now local.body).locals local.var))) starts.now t) }
{
    let rows = kept_rows(alloc, program, tables, local)?;
    let marks = reach(alloc, rows.as_slice(), starts)?;
    Ok(marks)
}
