//! Programs of one process at the edges of what validity allows.

use crate::changes::{Act, body_of, stmt_of};
use ppd_ast::{Expr, Kind, Memory, Place, Program, Seq, Stmt};
use ppd_check::read_source;
use std::alloc::Global;
use test_valid::is_valid_program;

/// A shared scalar, a shared array of one cell, and a print of the scalar.
const PRINTING: &str = "shared int x, a[1]; process p { print(x); }";

/// Has the print tell the last expression.
fn print_last(program: &mut Program) {
    let last = program.exprs.len().min(4096).saturating_sub(1) as u32;
    let stmt = Stmt {
        place: Place { line: 1, column: 1 },
        body: 0,
        parent: None,
        kind: Kind::Print(last),
    };
    program.stmts.set(0, stmt);
}

/// A print of the scalar under so many signs.
fn add_signs(program: &mut Program, count: u16) -> Result<(), Memory> {
    for number in 0..count {
        program.exprs.push(Expr::Neg(number as u32))?;
    }
    print_last(program);
    Ok(())
}

/// A print of an element whose index is an element, and so on, so many nodes deep.
fn add_elements(program: &mut Program, nodes: u16) -> Result<(), Memory> {
    for number in 1..nodes {
        let at = number as u32 - 1;
        program.exprs.push(Expr::SharedAt {
            base: 1,
            len: 1,
            at,
        })?;
    }
    print_last(program);
    Ok(())
}

/// Adds a statement inside the one before, with an expression of its own.
fn add_inside(alloc: Global, program: &mut Program, number: u8, act: Act) -> Result<(), Memory> {
    program.exprs.push(Expr::Const(1))?;
    let parent = match number {
        0 => None,
        _ => Some(u32::from(number) - 1),
    };
    let stmt = stmt_of(alloc, 0, parent, act)?;
    program.stmts.push(stmt)
}

/// Adds the end after so many loops and the print, and makes the process of all of it.
fn add_end(alloc: Global, program: &mut Program, count: u8) -> Result<(), Memory> {
    let end = u32::from(count) + 1;
    let stmt = stmt_of(alloc, 0, None, Act::End)?;
    program.stmts.push(stmt)?;
    let body = body_of(alloc, (true, false, 0), &[0, end], (0, end + 1))?;
    program.bodies.set(0, body);
    Ok(())
}

/// A print inside so many loops.
fn set_loops(alloc: Global, program: &mut Program, count: u8) -> Result<(), Memory> {
    program.exprs = Seq::new(alloc);
    program.stmts = Seq::new(alloc);
    for number in 0..count {
        let loop_number = u32::from(number);
        let act = Act::While(loop_number, &[loop_number + 1]);
        add_inside(alloc, program, number, act)?;
    }
    add_inside(alloc, program, count, Act::Print(u32::from(count)))?;
    add_end(alloc, program, count)
}

#[derive(Clone, Copy)]
enum Limit {
    Signs(u16),
    Nodes(u16),
    Loops(u8),
}

fn set(alloc: Global, program: &mut Program, limit: Limit) -> Result<(), Memory> {
    match limit {
        Limit::Signs(count) => add_signs(program, count),
        Limit::Nodes(count) => add_elements(program, count),
        Limit::Loops(count) => set_loops(alloc, program, count),
    }
}

/// Whether the program is valid with so many of them. None where memory is wanting.
fn is_valid_with(alloc: Global, program: &mut Program, limit: Limit) -> Option<bool> {
    match set(alloc, program, limit) {
        Ok(()) => Some(is_valid_program(program)),
        Err(Memory) => None,
    }
}

fn is_valid(alloc: Global, limit: Limit) -> Option<bool> {
    match read_source(alloc, PRINTING.as_bytes()) {
        Ok(mut program) => is_valid_with(alloc, &mut program, limit),
        Err(_) => None,
    }
}

// Operators, nodes and nesting at their limits and one past them.
const LIMITS: [(Limit, bool); 9] = [
    (Limit::Signs(0), true),
    (Limit::Signs(513), true),
    (Limit::Signs(514), false),
    (Limit::Nodes(1), true),
    (Limit::Nodes(1024), true),
    (Limit::Nodes(1025), false),
    (Limit::Loops(1), true),
    (Limit::Loops(63), true),
    (Limit::Loops(64), false),
];

#[test]
fn limits_of_expressions_and_nesting(rt: HostRuntime) {
    for (number, (limit, valid)) in LIMITS.iter().enumerate() {
        assert!(rt; is_valid(rt.alloc(), *limit) == Some(*valid), "{number}");
    }
}
