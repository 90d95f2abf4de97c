// The variables of bodies, and which of them a statement reads and writes.
ghost use Rattle.std.specs.Prelude.{◌≡◌, slice_get, IfOk};
ghost use Rattle.std.specs.List.{filter};
ghost use Rattle.ppd_ast.specs.Valid.{IsValid};
ghost use Rattle.ppd_ast.specs.Lookups.{body_of, body_numbered};
ghost use Rattle.ppd_sets.specs.Gained.{Gains, HasCells};
ghost use Rattle.ppd_sets.specs.Used.{AreSmall, is_met, reads_at, writes_at};
ghost use Rattle.ppd_deps.specs.Named.{calls};

use ppd_ast::{Cells, Kind, Memory, Program, Var};
use ppd_sets::{CellSet, add_reads, add_writes, does_meet};
use std::alloc::Global;

pub(crate) fn body_at(program: &Program, stmt: u32) -> u16
    ensures { result ≡ body_of program.now stmt }
{
    match program.stmt(stmt) {
        None => 0,
        Some(found) => found.body,
    }
}

pub(crate) fn locals(program: &Program, body: u16) -> &[Var]
    ensures { result.now ≡ (body_numbered program.now body).locals }
{
    match program.body(body) {
        None => &[],
        Some(found) => found.locals.as_slice(),
    }
}

pub(crate) fn params(program: &Program, body: u16) -> u16
    ensures { result ≡ (body_numbered program.now body).params }
{
    match program.body(body) {
        None => 0,
        Some(found) => found.params,
    }
}

// Whether the statement calls the body.
pub(crate) fn does_call(program: &Program, stmt: u32, body: u16) -> bool
    ensures { result ≡ calls program.now stmt body }
{
    match program.stmt(stmt) {
        None => false,
        Some(found) => match &found.kind {
            Kind::Call { function, .. } => *function == body,
            _ => false,
        },
    }
}

// Those of the variables of which a cell is in the set.
pub(crate) fn vars_of(
    alloc: Global,
    numbers: &[u16],
    vars: &[Var],
    set: &CellSet,
) -> Result<Cells, Memory>
    requires { AreSmall vars.now }
    ensures { IfOk result (λ ids. ids ≡ filter (λ v. is_met set.now (slice_get vars.now v)) numbers.now) }
{
    let mut ids = Cells::new(alloc);
    for number in numbers {
        if is_met_at(set, vars, *number) {
            ids.push(*number)?;
        }
    }
    Ok(ids)
}

// Whether a cell of the variable with this number is in the set.
pub(crate) fn is_met_at(set: &CellSet, vars: &[Var], number: u16) -> bool
    requires { AreSmall vars.now }
    ensures { result ≡ is_met set.now (slice_get vars.now number) }
{
    match vars.get(number as usize) {
        None => false,
        Some(var) => does_meet(set, var),
    }
}

// Adds the shared or the local cells that a statement may read, if it is there.
#[tactic(auto, using(crate::proofs::Naming::reads_past))]
fn add_reads_at(set: &mut CellSet, wants_shared: bool, program: &Program, stmt: u32)
    requires { IsValid program.now }
    ensures { Gains set.old set.new (reads_at wants_shared program.now stmt) }
{
    match program.stmt(stmt) {
        None => {}
        Some(found) => add_reads(set, wants_shared, program.exprs.as_slice(), &found.kind),
    }
}

// The shared or the local cells that a statement may read.
#[tactic(auto, using(crate::proofs::Naming::all_gained))]
pub(crate) fn read_cells(program: &Program, wants_shared: bool, stmt: u32) -> CellSet
    requires { IsValid program.now }
    ensures { HasCells result (reads_at wants_shared program.now stmt) }
{
    let mut set = CellSet::new();
    add_reads_at(&mut set, wants_shared, program, stmt);
    set
}

// Adds the shared or the local cells that a statement writes, if it is there.
#[tactic(auto, using(crate::proofs::Naming::writes_past))]
fn add_writes_at(set: &mut CellSet, wants_shared: bool, program: &Program, stmt: u32)
    ensures { Gains set.old set.new (writes_at wants_shared program.now stmt) }
{
    match program.stmt(stmt) {
        None => {}
        Some(found) => add_writes(set, wants_shared, &found.kind),
    }
}

// The shared or the local cells that a statement writes.
#[tactic(auto, using(crate::proofs::Naming::all_gained))]
pub(crate) fn written_cells(program: &Program, wants_shared: bool, stmt: u32) -> CellSet
    ensures { HasCells result (writes_at wants_shared program.now stmt) }
{
    let mut set = CellSet::new();
    add_writes_at(&mut set, wants_shared, program, stmt);
    set
}
