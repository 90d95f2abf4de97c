// The ways that stay in a unit.
ghost use Rattle.ppd_ast.specs.Lookups.{body_numbered, kind_of};
ghost use Rattle.ppd_ast.specs.Members.{has};
ghost use Rattle.ppd_ast.specs.Numbered.{is_left};
ghost use Rattle.ppd_ast.specs.Valid.{IsValid};
ghost use Rattle.ppd_blocks.specs.Walk.{begin_of, enters, is_between, stands_at, unit_rows};
ghost use Rattle.ppd_sets.specs.Flow.{follow, next_of};
ghost use Rattle.std.specs.List.{filter, find};
ghost use Rattle.std.specs.Prelude.{IfOk, None, Some, not, option_and_then, option_to_list, slice_get, ◌≡◌};

use ppd_ast::limits::MOST_NESTING;
use ppd_ast::{Ids, Memory, Program, Seq, Start, Stmt};
use ppd_sets::{next_after, successors_of};
use std::alloc::Global;

pub(crate) fn contains(list: &[u32], number: u32) -> bool
    ensures { result ≡ has list.now number }
{
    list.contains(&number)
}

fn parent(stmts: &[Stmt], number: u32) -> Option<u32>
    ensures { result ≡ option_and_then (λ x. x.parent) (slice_get stmts.now number) }
{
    match stmts.get(number as usize) {
        None => None,
        Some(found) => found.parent,
    }
}

// Whether `outer` is among this statement and those that it stands in. It calls itself no deeper.
fn does_stand_in(stmts: &[Stmt], outer: u32, stmt: Option<u32>, depth: u32) -> bool
    ensures { result ≡ stands_at depth stmts.now outer stmt }
{
    if depth == 0 {
        return false;
    }
    match stmt {
        None => false,
        Some(number) => {
            if number == outer {
                return true;
            }
            does_stand_in(stmts, outer, parent(stmts, number), depth - 1)
        }
    }
}

// Whether the way from a statement to `next` enters `next`, a block loop.
fn does_enter(program: &Program, loops: &[u32], stmt: u32, next: u32) -> bool
    ensures { result ≡ enters program.now loops.now stmt next }
{
    let stmts = program.stmts.as_slice();
    contains(loops, next) && !does_stand_in(stmts, next, Some(stmt), MOST_NESTING)
}

// Whether the way from a statement, a block loop, to `next` leaves it.
fn does_leave(program: &Program, loops: &[u32], stmt: u32, next: u32) -> bool
    ensures { result ≡ enters program.now loops.now next stmt }
{
    let stmts = program.stmts.as_slice();
    contains(loops, stmt) && !does_stand_in(stmts, stmt, Some(next), MOST_NESTING)
}

// Whether a unit starts after the statement: a call or a synchronization.
pub(crate) fn is_left_at(program: &Program, stmt: u32) -> bool
    ensures { result ≡ is_left (kind_of program.now stmt) }
{
    match program.stmt(stmt) {
        Some(found) => found.kind.is_left(),
        None => false,
    }
}

// Whether a unit starts between a statement and its successor.
fn is_between(program: &Program, loops: &[u32], stmt: u32, next: u32) -> bool
    ensures { result ≡ is_between program.now loops.now stmt next }
{
    is_left_at(program, stmt)
        || does_enter(program, loops, stmt, next)
        || does_leave(program, loops, stmt, next)
}

// The successors of a statement that are in its unit.
fn unit_row(alloc: Global, program: &Program, loops: &[u32], stmt: u32) -> Result<Ids, Memory>
    ensures { IfOk result
        (λ ids. ids ≡ filter (λ t. not (is_between program.now loops.now stmt t)) (next_of program.now stmt)) }
{
    let next = successors_of(alloc, program, stmt)?;
    let numbers = next.as_slice();
    let mut ids = Ids::new(alloc);
    for index in 0..numbers.len() {
        if !is_between(program, loops, stmt, numbers[index]) {
            ids.push(numbers[index])?;
        }
    }
    Ok(ids)
}

pub(crate) fn unit_rows(alloc: Global, program: &Program, loops: &[u32]) -> Result<Seq<Ids>, Memory>
    requires { IsValid program.now }
    ensures { IfOk result (λ rows. rows ≡ unit_rows program.now loops.now) }
{
    let mut rows = Seq::new(alloc);
    for stmt in 0..program.stmts.len() {
        let row = unit_row(alloc, program, loops, stmt as u32)?;
        rows.push(row)?;
    }
    Ok(rows)
}

fn first_of(program: &Program, body: u16) -> Option<u32>
    ensures { result ≡ slice_get (body_numbered program.now body).top 0 }
{
    match program.body(body) {
        None => None,
        Some(found) => found.top.get(0).copied(),
    }
}

fn begin_of_body(program: &Program, loops: &[u32], body: u16) -> Option<u32>
    ensures { result ≡ find (λ t. not (has loops.now t))
        (option_to_list (slice_get (body_numbered program.now body).top 0)) }
{
    match first_of(program, body) {
        None => None,
        Some(number) => {
            if contains(loops, number) {
                None
            } else {
                Some(number)
            }
        }
    }
}

fn begin_after(program: &Program, loops: &[u32], stmt: u32) -> Option<u32>
    ensures { result ≡ find (λ t. not (enters program.now loops.now stmt t))
        (option_to_list (follow program.now stmt)) }
{
    match next_after(program, stmt) {
        None => None,
        Some(number) => {
            if does_enter(program, loops, stmt, number) {
                None
            } else {
                Some(number)
            }
        }
    }
}

// The statement that a unit begins with, if it has one.
pub(crate) fn begin_of(program: &Program, loops: &[u32], start: Start) -> Option<u32>
    ensures { result ≡ begin_of program.now loops.now start }
{
    match start {
        Start::Entry(body) => begin_of_body(program, loops, body),
        Start::Enter(stmt) => Some(stmt),
        Start::After(stmt) | Start::Exit(stmt) => begin_after(program, loops, stmt),
    }
}
