// Changes of programs, after which they are valid or not.

use ppd_ast::{Body, Chan, Expr, Ids, Kind, Memory, Op, Place, Program, Sem, Seq, Stmt};
use ppd_check::read_source;
use std::alloc::Global;
use test_valid::is_valid_program;

// A statement's kind in a line of a table.
#[derive(Clone, Copy)]
pub(crate) enum Act<'a> {
    If(u32, &'a [u32]),
    While(u32, &'a [u32]),
    Print(u32),
    Call(u16, &'a [u32], Option<u16>),
    Return(Option<u32>),
    P(u8),
    Send(u8, u32),
    End,
}

// What is changed.
#[derive(Clone, Copy)]
enum Change<'a> {
    // an expression by its number, and what stands in its place
    Expr(usize, Expr),
    // a statement by its number; of a body, with its parent
    Stmt(usize, u16, Option<u32>, Act<'a>),
    // a body by its number, without locals: whether it is a process, whether it gives a value, and its parameters; its
    // outermost statements; and its range
    Body(usize, (bool, bool, u16), &'a [u32], (u32, u32)),
    // so many functions before the processes
    Functions(u16),
    // one start value more
    Start,
    // a channel of this capacity more
    Channel(u8),
    // a semaphore by its number, with a name of so many bytes and this start
    Lock(usize, usize, u32),
}

fn ids(alloc: Global, items: &[u32]) -> Result<Ids, Memory> {
    Ok(Seq::from_vec(Vec::from_slice(alloc, items)?))
}

fn kind_of(alloc: Global, act: Act) -> Result<Kind, Memory> {
    Ok(match act {
        Act::If(value, list) => Kind::If(value, ids(alloc, list)?, Seq::new(alloc)),
        Act::While(value, list) => Kind::While(value, ids(alloc, list)?),
        Act::Print(value) => Kind::Print(value),
        Act::Call(function, args, into) => Kind::Call {
            function,
            args: ids(alloc, args)?,
            into,
        },
        Act::Return(value) => Kind::Return(value),
        Act::P(sem) => Kind::P(sem),
        Act::Send(chan, value) => Kind::Send(chan, value),
        Act::End => Kind::End,
    })
}

pub(crate) fn stmt_of(
    alloc: Global,
    body: u16,
    parent: Option<u32>,
    act: Act,
) -> Result<Stmt, Memory> {
    let kind = kind_of(alloc, act)?;
    let place = Place { line: 1, column: 1 };
    Ok(Stmt {
        place,
        body,
        parent,
        kind,
    })
}

pub(crate) fn body_of(
    alloc: Global,
    (process, value, params): (bool, bool, u16),
    top: &[u32],
    (first, end): (u32, u32),
) -> Result<Body, Memory> {
    let top = ids(alloc, top)?;
    Ok(Body {
        name: Seq::new(alloc),
        process,
        params,
        value,
        cells: 0,
        locals: Seq::new(alloc),
        top,
        first,
        end,
    })
}

fn set_lock(
    alloc: Global,
    program: &mut Program,
    number: usize,
    bytes: usize,
    start: u32,
) -> Result<(), Memory> {
    let name = Seq::from_vec(vec![in alloc; b'a'; bytes]?);
    program.sems.set(number, Sem { name, start });
    Ok(())
}

fn set_stmt(
    alloc: Global,
    program: &mut Program,
    number: usize,
    body: u16,
    parent: Option<u32>,
    act: Act,
) -> Result<(), Memory> {
    let stmt = stmt_of(alloc, body, parent, act)?;
    program.stmts.set(number, stmt);
    Ok(())
}

fn apply(alloc: Global, program: &mut Program, change: Change) -> Result<(), Memory> {
    match change {
        Change::Expr(number, expr) => program.exprs.set(number, expr),
        Change::Stmt(number, body, parent, act) => {
            set_stmt(alloc, program, number, body, parent, act)?
        }
        Change::Body(number, sort, top, range) => {
            let body = body_of(alloc, sort, top, range)?;
            program.bodies.set(number, body);
        }
        Change::Functions(count) => program.functions = count,
        Change::Start => program.starts.push(0)?,
        Change::Channel(capacity) => {
            let name = Seq::new(alloc);
            program.chans.push(Chan { name, capacity })?
        }
        Change::Lock(number, bytes, start) => set_lock(alloc, program, number, bytes, start)?,
    }
    Ok(())
}

/// Whether the program is valid after a change. None where memory is wanting.
fn is_valid_after(alloc: Global, program: &mut Program, change: Change) -> Option<bool> {
    match apply(alloc, program, change) {
        Ok(()) => Some(is_valid_program(program)),
        Err(Memory) => None,
    }
}

fn is_valid_with(alloc: Global, source: &str, change: Change) -> Option<bool> {
    match read_source(alloc, source.as_bytes()) {
        Ok(mut program) => is_valid_after(alloc, &mut program, change),
        Err(_) => None,
    }
}

const ASSIGNMENT: &str = "shared int x; process a { x = 2; print(x + 3); }";

// A child that is not smaller; one used twice and one not at all; a cell of no variable.
const OF_AN_ASSIGNMENT: [Change<'static>; 4] = [
    Change::Expr(3, Expr::Two(Op::Add, 1, 3)),
    Change::Expr(3, Expr::Two(Op::Add, 1, 1)),
    Change::Expr(1, Expr::Shared(1)),
    Change::Expr(1, Expr::Local(0)),
];

pub(crate) const CALL: &str =
    "shared int x; void f() { x = 4; } process a { x = 1; f(); print(x); }";

// An `End` in a function; a `Return` and a second `End` in a process; a function that is a process; a value that is
// not returned; a semaphore and a channel that are not there; a statement of another body; a parent that is none.
const LINES_OF_A_CALL: [Change<'static>; 9] = [
    Change::Stmt(1, 0, None, Act::End),
    Change::Stmt(3, 1, None, Act::Return(None)),
    Change::Stmt(3, 1, None, Act::End),
    Change::Stmt(3, 1, None, Act::Call(1, &[], None)),
    Change::Stmt(3, 1, None, Act::Call(0, &[], Some(0))),
    Change::Stmt(3, 1, None, Act::P(0)),
    Change::Stmt(2, 1, None, Act::Send(0, 1)),
    Change::Stmt(3, 0, None, Act::Call(0, &[], None)),
    Change::Stmt(3, 1, Some(2), Act::Call(0, &[], None)),
];

// A value that its `Return` has not; a parameter that is no variable; a process that is first; statements out of
// order; a range that takes too much; a function among the processes.
const BODIES_OF_A_CALL: [Change<'static>; 6] = [
    Change::Body(0, (false, true, 0), &[0, 1], (0, 2)),
    Change::Body(0, (false, false, 1), &[0, 1], (0, 2)),
    Change::Body(0, (true, false, 0), &[0, 1], (0, 2)),
    Change::Body(1, (true, false, 0), &[3, 2, 4, 5], (2, 6)),
    Change::Body(0, (false, false, 0), &[0, 1], (0, 3)),
    Change::Body(1, (false, false, 0), &[2, 3, 4, 5], (0, 6)),
];

// What a body is without a change.
const BODY_OF_A_CALL: [Change<'static>; 1] = [Change::Body(
    1,
    (true, false, 0),
    &[2, 3, 4, 5],
    (2, 6),
)];

pub(crate) const RECURSION: &str = "shared int x; \
    int f(int n) { int r; if (n > 0) { r = f(n - 1); } return r + 1; } \
    process a { int v = f(2); print(v); }";

// A statement in no list, one in a list twice, one whose parent is another, a receiving local that is none, and an
// argument too few.
const OF_A_RECURSION: [Change<'static>; 5] = [
    Change::Stmt(1, 0, None, Act::If(3, &[])),
    Change::Stmt(1, 0, None, Act::If(3, &[2, 2])),
    Change::Stmt(2, 0, None, Act::Call(0, &[6], Some(1))),
    Change::Stmt(2, 0, Some(1), Act::Call(0, &[6], Some(2))),
    Change::Stmt(2, 0, Some(1), Act::Call(0, &[], Some(1))),
];

// Four cells, three semaphores, two functions and two processes.
pub(crate) const BUFFER: &str =
    "shared int buf[4]; shared int head, tail; sem empty = 4, full = 0, m = 1; \
    void put(int v) { P(empty); P(m); buf[tail % 4] = v; tail = tail + 1; V(m); V(full); } \
    int get() { int v; P(full); P(m); v = buf[head % 4]; head = head + 1; V(m); V(empty); return v; } \
    process producer { for (int i = 0; i < 100; i++) { int w = i; if (i == 57) { w = 0; } put(w); } } \
    process consumer { for (int i = 0; i < 100; i++) { int v = get(); assert(v == i); } }";

// Each of them breaks one sentence of validity; the last takes its argument from `put`, whose expression is then used
// nowhere.
const OF_THE_BUFFER: [Change<'static>; 6] = [
    Change::Functions(3),
    Change::Start,
    Change::Channel(65),
    Change::Lock(2, 1, 65_536),
    Change::Lock(2, 65, 0),
    Change::Stmt(20, 2, Some(16), Act::Call(0, &[], None)),
];

const KEPT_OF_THE_BUFFER: [Change<'static>; 6] = [
    Change::Functions(2),
    Change::Channel(0),
    Change::Channel(64),
    Change::Lock(2, 1, 65_535),
    Change::Lock(2, 64, 0),
    Change::Lock(2, 0, 1),
];

// A source, changes of its program, and whether it is valid after each of them.
type Changed<'a> = (&'a str, &'a [Change<'a>], bool);

const CHANGED: [Changed<'static>; 7] = [
    (ASSIGNMENT, &OF_AN_ASSIGNMENT, false),
    (CALL, &LINES_OF_A_CALL, false),
    (CALL, &BODIES_OF_A_CALL, false),
    (CALL, &BODY_OF_A_CALL, true),
    (RECURSION, &OF_A_RECURSION, false),
    (BUFFER, &OF_THE_BUFFER, false),
    (BUFFER, &KEPT_OF_THE_BUFFER, true),
];

fn are_valid(alloc: Global, (source, changes, valid): &Changed) -> bool {
    for change in *changes {
        if is_valid_with(alloc, source, *change) != Some(*valid) {
            return false;
        }
    }
    true
}

#[test]
fn changed_programs(rt: HostRuntime) {
    for (number, changed) in CHANGED.iter().enumerate() {
        assert!(rt; are_valid(rt.alloc(), changed), "{number}");
    }
}
