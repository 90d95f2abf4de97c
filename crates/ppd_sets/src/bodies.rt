ghost use Rattle.std.specs.Prelude.{◌≡◌, ◌<◌, ◌++◌, true, min, length, IfOk, OnOk};
ghost use Rattle.std.specs.List.{flat_map};
ghost use Rattle.ppd_ast.specs.Numbered.{numbers_of};
ghost use Rattle.ppd_ast.specs.Table.{EachAt, AreChildrenBelow};
ghost use Rattle.ppd_ast.specs.Valid.{IsValid};
ghost use Rattle.ppd_ast.specs.Lookups.{kind_of};
ghost use Rattle.ppd_sets.specs.Used.{callee, call_rows, called_from, reads_at, stmts_at, writes_at};
ghost use Rattle.ppd_sets.specs.Gained.{GainsBoth, HasBoth, reads_of, writes_of};

use crate::reached;
use crate::touched::Touched;
use ppd_ast::{Body, Ids, Kind, Memory, Program, Seq, Stmt};
use std::alloc::Global;

/// The number after the body's last statement that is there.
pub fn end_of(stmts: &[Stmt], body: &Body) -> u32
    ensures { result ≡ min body.now.end (length stmts.now) }
{
    (body.end as usize).min(stmts.len()) as u32
}

// Appends the function that a statement of this kind calls.
fn push_call(ids: &mut Ids, kind: &Kind) -> Result<(), Memory>
    ensures { OnOk result (ids.new ≡ ids.old ++ callee kind.now) }
{
    match kind {
        Kind::Call { function, .. } => ids.push(*function as u32),
        _ => Ok(()),
    }
}

// The functions that a body's statements call.
fn calls_in(alloc: Global, program: &Program, body: &Body) -> Result<Ids, Memory>
    ensures { IfOk result
        (λ ids. ids ≡ flat_map (λ s. callee (kind_of program.now s)) (numbers_of program.now.stmts body.now)) }
{
    let stmts = program.stmts.as_slice();
    let mut ids = Ids::new(alloc);
    for number in body.first..end_of(stmts, body) {
        push_call(&mut ids, &stmts[number as usize].kind)?;
    }
    Ok(ids)
}

/// The functions that each body calls, as a row of numbers for each body. `Memory` is want of memory.
pub fn calls(alloc: Global, program: &Program) -> Result<Seq<Ids>, Memory>
    ensures { IfOk result (λ rows. rows ≡ call_rows program.now) }
{
    let mut rows = Seq::new(alloc);
    let bodies = program.bodies.as_slice();
    for number in 0..bodies.len() {
        let row = calls_in(alloc, program, &bodies[number])?;
        rows.push(row)?;
    }
    Ok(rows)
}

// The shared cells of a body's statements.
fn touched_in(program: &Program, body: &Body) -> Touched
    requires { EachAt AreChildrenBelow program.now.exprs }
    ensures { HasBoth result
        (flat_map (reads_at true program.now) (numbers_of program.now.stmts body.now))
        (flat_map (writes_at true program.now) (numbers_of program.now.stmts body.now)) }
{
    let stmts = program.stmts.as_slice();
    let mut touched = Touched::new();
    for number in body.first..end_of(stmts, body) {
        touched.add(true, program, &stmts[number as usize].kind);
    }
    touched
}

// The shared cells of each body's statements.
pub(crate) fn touched_by_bodies(alloc: Global, program: &Program) -> Result<Seq<Touched>, Memory>
    requires { EachAt AreChildrenBelow program.now.exprs }
    ensures long { IfOk result (λ list. length list ≡ length program.now.bodies) }
    ensures each { IfOk result
        (λ list. EachAt (λ k t. HasBoth t
        (flat_map (reads_at true program.now) (stmts_at program.now k))
        (flat_map (writes_at true program.now) (stmts_at program.now k))) list) }
{
    let mut list = Seq::new(alloc);
    let bodies = program.bodies.as_slice();
    for number in 0..bodies.len() {
        let touched = touched_in(program, &bodies[number]);
        list.push(touched)?;
    }
    Ok(list)
}

// Adds the cells of the one with this number, if it is there.
fn add_at(touched: &mut Touched, list: &[Touched], number: u32)
    ensures { GainsBoth touched.old touched.new (reads_of list.now number) (writes_of list.now number) }
{
    match list.get(number as usize) {
        None => {}
        Some(other) => touched.add_all(other),
    }
}

// The shared cells of the bodies of these numbers.
fn touched_by(list: &[Touched], numbers: &[u32]) -> Touched
    ensures { HasBoth result
        (flat_map (reads_of list.now) numbers.now)
        (flat_map (writes_of list.now) numbers.now) }
{
    let mut touched = Touched::new();
    for number in numbers {
        add_at(&mut touched, list, *number);
    }
    touched
}

// The shared cells of the bodies that a chain of calls reaches from this one, itself included: a
// work list over the rows of calls.
pub(crate) fn touched_from(
    alloc: Global,
    program: &Program,
    rows: &Seq<Ids>,
    list: &Seq<Touched>,
    body: u32,
) -> Result<Touched, Memory>
    requires valid { IsValid program.now }
    requires rows { rows.now ≡ call_rows program.now }
    requires long { length list.now ≡ length program.now.bodies }
    requires each { EachAt (λ k t. HasBoth t
        (flat_map (reads_at true program.now) (stmts_at program.now k))
        (flat_map (writes_at true program.now) (stmts_at program.now k))) list.now }
    requires body { body < length program.now.bodies }
    ensures { IfOk result (λ t. HasBoth t
        (flat_map (λ b. flat_map (reads_at true program.now) (stmts_at program.now b)) (called_from program.now body))
        (flat_map (λ b. flat_map (writes_at true program.now) (stmts_at program.now b))
        (called_from program.now body))) }
{
    let numbers = reached(alloc, rows.as_slice(), &[body])?;
    Ok(touched_by(list.as_slice(), numbers.as_slice()))
}
