ghost use Rattle.std.specs.Prelude.{◌≡◌, ◌<◌, ◌≤◌, ◌↔◌, ◌+◌, ◌-◌, nat_le, IsTrue, IsSome, IsSomeAnd, length, slice_get, Some, None, false};
ghost use Rattle.std.specs.List.{All, flat_map, range_with_len};
ghost use Rattle.ppd_ast.specs.Table.{EachAt, AreChildrenBelow};
ghost use Rattle.ppd_ast.specs.Cells.{CoverCells, AreParams};
ghost use Rattle.ppd_ast.specs.Order.{preorder, StandIn};
ghost use Rattle.ppd_ast.specs.Uses.{kind_uses};
ghost use Rattle.ppd_ast.specs.Valid.{IsName, AreNamed, AreWithinLimits, Follow, last_of, IsEnding, EndsBody, HasObject, CallsRightly, IsValidUse, IsValidKind, IsValidStmt, IsValidBody, IsValid};

use crate::cells::{are_params, do_cover, does_name_whole, does_write_whole};
use crate::order::{counted_in, do_stand_in, does_stand_inside};
use crate::uses::{are_ordered, are_used_once, is_within_depth, operators, use_at, use_count};
use ppd_ast::limits::{
    LEAST_CAPACITY, MOST_CAPACITY, MOST_CHANNELS, MOST_EXPRESSION_DEPTH, MOST_FUNCTIONS,
    MOST_LOCAL_CELLS, MOST_NAME_BYTES, MOST_NESTING, MOST_OPERATORS, MOST_PROCESSES,
    MOST_SEMAPHORES, MOST_SHARED_CELLS, MOST_START, MOST_STATEMENTS,
};
use ppd_ast::{Body, Chan, Kind, Program, Sem, Stmt, Var};

fn is_name(name: &[u8]) -> bool
    ensures { IsTrue result ↔ IsName name.now }
{
    name.len() <= MOST_NAME_BYTES
}

fn are_named(vars: &[Var]) -> bool
    ensures { IsTrue result ↔ AreNamed vars.now }
{
    for index in 0..vars.len() {
        if !is_name(vars[index].name.as_slice()) {
            return false;
        }
    }
    true
}

fn are_valid_sems(sems: &[Sem]) -> bool
    ensures { IsTrue result ↔ All (λ s. IsName s.name × (s.start ≤ MOST_START)) sems.now }
{
    for index in 0..sems.len() {
        let sem = &sems[index];
        if !is_name(sem.name.as_slice()) || sem.start > MOST_START {
            return false;
        }
    }
    true
}

fn are_valid_chans(chans: &[Chan]) -> bool
    ensures { IsTrue result ↔ All
        (λ c. IsName c.name × (LEAST_CAPACITY ≤ c.capacity) × (c.capacity ≤ MOST_CAPACITY)) chans.now }
{
    for index in 0..chans.len() {
        let chan = &chans[index];
        if !is_name(chan.name.as_slice()) || !is_capacity(chan.capacity) {
            return false;
        }
    }
    true
}

fn is_capacity(capacity: u8) -> bool
    ensures { IsTrue result ↔ ((LEAST_CAPACITY ≤ capacity) × (capacity ≤ MOST_CAPACITY)) }
{
    (LEAST_CAPACITY..=MOST_CAPACITY).contains(&capacity)
}

// Whether the bodies' ranges follow one another from `from` up to `end`.
fn do_follow(bodies: &[Body], end: usize) -> bool
    ensures { IsTrue result ↔ Follow 0 bodies.now end }
{
    let mut next = 0;
    for body in bodies {
        if body.first != next || body.end < next {
            return false;
        }
        next = body.end;
    }
    next as usize == end
}

fn last_of(list: &[u32]) -> Option<u32>
    ensures { result ≡ last_of list.now }
{
    list.last().copied()
}

fn is_ending(kind: &Kind) -> bool
    ensures { IsTrue result ↔ IsEnding kind.now }
{
    match kind {
        Kind::Return(_) | Kind::End => true,
        _ => false,
    }
}

fn does_end_body(kind: &Kind, body: &Body, number: u32) -> bool
    ensures { IsTrue result ↔ EndsBody body.now number kind.now }
{
    match kind {
        Kind::Return(value) => {
            !body.process
                && value.is_some() == body.value
                && last_of(body.top.as_slice()) == Some(number)
        }
        Kind::End => body.process && last_of(body.top.as_slice()) == Some(number),
        _ => true,
    }
}

// Whether the body, if it is a process, has no parameters and gives no value.
fn is_plain_process(body: &Body) -> bool
    ensures { IsTrue result ↔ (IsTrue body.now.process → (body.now.params ≡ 0) × (body.now.value ≡ false)) }
{
    !body.process || (body.params == 0 && !body.value)
}

fn has_valid_frame(body: &Body) -> bool
    ensures { IsTrue result ↔
        ((body.now.cells ≤ MOST_LOCAL_CELLS) × CoverCells body.now.locals body.now.cells
        × AreParams body.now.locals body.now.params) }
{
    body.cells as usize <= MOST_LOCAL_CELLS
        && do_cover(body.locals.as_slice(), body.cells as usize)
        && are_params(body.locals.as_slice(), body.params)
}

fn is_ending_at(stmts: &[Stmt], number: Option<u32>) -> bool
    ensures { IsTrue result ↔ IsSomeAnd number (λ i. IsSomeAnd (slice_get stmts.now i) (λ s. IsEnding s.kind)) }
{
    match number {
        None => false,
        Some(number) => match stmts.get(number as usize) {
            None => false,
            Some(stmt) => is_ending(&stmt.kind),
        },
    }
}

// Whether the body takes so many arguments and gives a value if one is received.
fn is_call_of(bodies: &[Body], function: u16, count: usize, into: Option<u16>) -> bool
    ensures { IsTrue result ↔ IsSomeAnd (slice_get bodies.now function)
        (λ g. (count ≡ g.params) × (IsSome into → IsTrue g.value)) }
{
    match bodies.get(function as usize) {
        None => false,
        Some(body) => count == body.params as usize && (into.is_none() || body.value),
    }
}

fn is_within_limits(program: &Program) -> bool
    ensures { IsTrue result ↔ AreWithinLimits program.now }
{
    let functions = program.functions as usize;
    program.stmts.len() <= MOST_STATEMENTS
        && functions <= MOST_FUNCTIONS
        && functions < program.bodies.len()
        && program.bodies.len() <= functions + MOST_PROCESSES
        && program.starts.len() <= MOST_SHARED_CELLS
        && are_named(program.shared.as_slice())
        && program.sems.len() <= MOST_SEMAPHORES
        && are_valid_sems(program.sems.as_slice())
        && program.chans.len() <= MOST_CHANNELS
        && are_valid_chans(program.chans.as_slice())
}

fn has_object(program: &Program, kind: &Kind) -> bool
    ensures { IsTrue result ↔ HasObject program.now kind.now }
{
    match kind {
        Kind::P(sem) | Kind::V(sem) => (*sem as usize) < program.sems.len(),
        Kind::Send(chan, _) | Kind::Recv(chan, _) => (*chan as usize) < program.chans.len(),
        _ => true,
    }
}

fn does_call_rightly(program: &Program, kind: &Kind) -> bool
    ensures { IsTrue result ↔ CallsRightly program.now kind.now }
{
    match kind {
        Kind::Call {
            function,
            args,
            into,
        } => {
            *function < program.functions
                && is_call_of(program.bodies.as_slice(), *function, args.len(), *into)
        }
        _ => true,
    }
}

fn is_valid_use(program: &Program, body: &Body, number: u32) -> bool
    requires { EachAt AreChildrenBelow program.now.exprs }
    ensures { IsTrue result ↔ IsValidUse program.now body.now number }
{
    let exprs = program.exprs.as_slice();
    (number as usize) < exprs.len()
        && is_within_depth(exprs, number, MOST_EXPRESSION_DEPTH)
        && operators(exprs, number) <= MOST_OPERATORS
        && does_name_whole(
            exprs,
            number,
            program.shared.as_slice(),
            body.locals.as_slice(),
        )
}

fn are_valid_uses(program: &Program, body: &Body, kind: &Kind) -> bool
    requires { EachAt AreChildrenBelow program.now.exprs }
    ensures { IsTrue result ↔ All (IsValidUse program.now body.now) (kind_uses kind.now) }
{
    for place in 0..use_count(kind) {
        if !is_valid_use(program, body, use_at(kind, place)) {
            return false;
        }
    }
    true
}

fn is_valid_kind(program: &Program, body: &Body, number: u32, kind: &Kind) -> bool
    requires { EachAt AreChildrenBelow program.now.exprs }
    ensures { IsTrue result ↔ IsValidKind program.now body.now number kind.now }
{
    are_valid_uses(program, body, kind)
        && does_write_whole(kind, program.shared.as_slice(), body.locals.as_slice())
        && has_object(program, kind)
        && does_call_rightly(program, kind)
        && does_end_body(kind, body, number)
}

fn is_kind_valid_in(program: &Program, body: u16, number: u32, kind: &Kind) -> bool
    requires { EachAt AreChildrenBelow program.now.exprs }
    ensures { IsTrue result ↔ IsSomeAnd (slice_get program.now.bodies body)
        (λ b. IsValidKind program.now b number kind.now) }
{
    match program.bodies.as_slice().get(body as usize) {
        None => false,
        Some(body) => is_valid_kind(program, body, number, kind),
    }
}

fn is_valid_stmt(program: &Program, number: u32, stmt: &Stmt) -> bool
    requires { EachAt AreChildrenBelow program.now.exprs }
    ensures { IsTrue result ↔ IsValidStmt program.now number stmt.now }
{
    does_stand_inside(
        program.stmts.as_slice(),
        Some(number),
        stmt.body,
        &stmt.kind,
    ) && is_kind_valid_in(program, stmt.body, number, &stmt.kind)
}

fn are_valid_stmts(program: &Program) -> bool
    requires children { EachAt AreChildrenBelow program.now.exprs }
    requires limit { length program.now.stmts ≤ MOST_STATEMENTS }
    ensures { IsTrue result ↔ EachAt (IsValidStmt program.now) program.now.stmts }
{
    let stmts = program.stmts.as_slice();
    for index in 0..stmts.len() {
        if !is_valid_stmt(program, index as u32, &stmts[index]) {
            return false;
        }
    }
    true
}

fn is_body_in_order(program: &Program, body: &Body) -> bool
    requires { body.now.first ≤ body.now.end }
    ensures { IsTrue result ↔
        (flat_map (preorder MOST_NESTING program.now.stmts) body.now.top
        ≡ range_with_len body.now.first (body.now.end - body.now.first)) }
{
    let stmts = program.stmts.as_slice();
    let first = body.first as usize;
    counted_in(stmts, body.top.as_slice(), first, MOST_NESTING) == Some(body.end as usize)
}

// What stands of the body itself: of which sort it is, and its names.
fn has_valid_head(program: &Program, number: u16, body: &Body) -> bool
    ensures { IsTrue result ↔
        ((body.now.process ≡ nat_le program.now.functions number)
        × (IsTrue body.now.process → (body.now.params ≡ 0) × (body.now.value ≡ false)) × IsName body.now.name
        × AreNamed body.now.locals) }
{
    body.process == (program.functions <= number)
        && is_plain_process(body)
        && is_name(body.name.as_slice())
        && are_named(body.locals.as_slice())
}

// Its statements: their order, the top list, and the last one.
fn has_valid_list(program: &Program, number: u16, body: &Body) -> bool
    requires { body.now.first ≤ body.now.end }
    ensures { IsTrue result ↔
        ((flat_map (preorder MOST_NESTING program.now.stmts) body.now.top
        ≡ range_with_len body.now.first (body.now.end - body.now.first))
        × StandIn program.now.stmts None number body.now.top
        × IsSomeAnd (last_of body.now.top) (λ i. IsSomeAnd (slice_get program.now.stmts i) (λ s. IsEnding s.kind))) }
{
    let stmts = program.stmts.as_slice();
    is_body_in_order(program, body)
        && do_stand_in(stmts, None, number, body.top.as_slice())
        && is_ending_at(stmts, last_of(body.top.as_slice()))
}

fn is_valid_body(program: &Program, number: u16, body: &Body) -> bool
    requires { body.now.first ≤ body.now.end }
    ensures { IsTrue result ↔ IsValidBody program.now number body.now }
{
    if !has_valid_head(program, number, body) {
        return false;
    }
    if !has_valid_frame(body) {
        return false;
    }
    has_valid_list(program, number, body)
}

fn are_valid_bodies(program: &Program) -> bool
    requires limits { AreWithinLimits program.now }
    requires ranges { Follow 0 program.now.bodies (length program.now.stmts) }
    ensures { IsTrue result ↔ EachAt (IsValidBody program.now) program.now.bodies }
{
    let bodies = program.bodies.as_slice();
    for index in 0..bodies.len() {
        if !is_valid_body(program, index as u16, &bodies[index]) {
            return false;
        }
    }
    true
}

/// Whether the program is valid: one that the calls of the crates may be given.
pub fn is_valid_program(program: &Program) -> bool
    ensures { IsTrue result ↔ IsValid program.now }
{
    let exprs = program.exprs.as_slice();
    let stmts = program.stmts.as_slice();
    if !is_within_limits(program) {
        return false;
    }
    if !are_ordered(exprs) {
        return false;
    }
    if !are_used_once(exprs, stmts) {
        return false;
    }
    if !do_cover(program.shared.as_slice(), program.starts.len()) {
        return false;
    }
    if !do_follow(program.bodies.as_slice(), stmts.len()) {
        return false;
    }
    if !are_valid_bodies(program) {
        return false;
    }
    are_valid_stmts(program)
}
