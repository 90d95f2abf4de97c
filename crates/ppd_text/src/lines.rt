// The lines of the tables.
ghost use Rattle.std.specs.Prelude.{◌≡◌, ◌<◌, ◌++◌, ◌^◌, codes, if◌then◌else◌, length, OnOk, IfOk, true};
ghost use Rattle.std.specs.List.{flat_map};
ghost use Rattle.ppd_ast.specs.Numbered.{numbers_of};
ghost use Rattle.ppd_ast.specs.Valid.{IsValid};
ghost use Rattle.ppd_sets.specs.SetsOf.{AreSetsOf};
ghost use Rattle.ppd_sets.specs.Used.{shared_through, reads_at, writes_at};
ghost use Rattle.ppd_text.specs.Names.{names_text};
ghost use Rattle.ppd_text.specs.Plans.{lines_of};
ghost use Rattle.ppd_text.specs.Table.{body_line, body_lines, stmt_line, stmt_at, body_at, table_of};

use crate::kinds::put_kind;
use crate::names::put_names;
use crate::plans::put_lines;
use crate::text::{put, put_head, put_stmt_head};
use ppd_ast::{Body, Memory, Plan, Program, Stmt, Var};
use ppd_sets::{VarSets, end_of};
use std::alloc::Global;

fn put_stmt(text: &mut Vec<u8>, program: &Program, number: u32, stmt: &Stmt) -> Result<(), Memory>
    ensures { OnOk result (text.new.items ≡ text.old.items ++ stmt_line program.now number stmt.now) }
{
    put_stmt_head(text, number, stmt.place)?;
    put_kind(text, program, &stmt.kind)?;
    put(text, b"\n")
}

/// Appends the line `stmt S PLACE KIND` of a statement, or nothing where there is none of this number. `Memory` is
/// want of memory; what the text then holds is not said.
pub fn put_stmt_at(text: &mut Vec<u8>, program: &Program, number: u32) -> Result<(), Memory>
    ensures { OnOk result (text.new.items ≡ text.old.items ++ stmt_at program.now number) }
{
    match program.stmts.get(number as usize) {
        Some(stmt) => put_stmt(text, program, number, stmt),
        None => Ok(()),
    }
}

fn put_stmts(text: &mut Vec<u8>, program: &Program, body: &Body) -> Result<(), Memory>
    ensures { OnOk result
        (text.new.items ≡ text.old.items ++ flat_map (stmt_at program.now) (numbers_of program.now.stmts body.now)) }
{
    for number in body.first..end_of(program.stmts.as_slice(), body) {
        put_stmt_at(text, program, number)?;
    }
    Ok(())
}

fn put_what(text: &mut Vec<u8>, body: &Body) -> Result<(), Memory>
    ensures { OnOk result
        (text.new.items
        ≡ text.old.items
        ++ ((if body.now.process then codes "process " else codes "function ") ++ body.now.name)) }
{
    if body.process {
        put(text, b"process ")?;
    } else {
        put(text, b"function ")?;
    }
    put(text, body.name.as_slice())
}

// Appends what is used and what is defined of these variables.
fn put_uses(text: &mut Vec<u8>, vars: &[Var], used: &[u16], defined: &[u16]) -> Result<(), Memory>
    ensures { OnOk result
        (text.new.items
        ≡ text.old.items
        ++ (codes " used" ++ names_text vars.now used.now ++ codes " defined" ++ names_text vars.now defined.now)) }
{
    put(text, b" used")?;
    put_names(text, vars, used)?;
    put(text, b" defined")?;
    put_names(text, vars, defined)
}

// Appends what a body uses and defines.
fn put_sets(
    text: &mut Vec<u8>,
    program: &Program,
    sets: &VarSets,
    number: u16,
) -> Result<(), Memory>
    requires sets { AreSetsOf program.now sets.now }
    requires there { number < length program.now.bodies }
    ensures { OnOk result
        (text.new.items
        ≡ text.old.items
        ++ (codes " used" ++ names_text program.now.shared
        (shared_through program.now (reads_at true program.now) number)
        ++ codes " defined" ++ names_text program.now.shared
        (shared_through program.now (writes_at true program.now) number))) }
{
    let vars = program.shared.as_slice();
    put_uses(text, vars, sets.used(number), sets.defined(number))?;
    Ok(())
}

fn put_body(
    text: &mut Vec<u8>,
    program: &Program,
    sets: &VarSets,
    number: u16,
    body: &Body,
) -> Result<(), Memory>
    requires sets { AreSetsOf program.now sets.now }
    requires there { number < length program.now.bodies }
    ensures { OnOk result (text.new.items ≡ text.old.items ++ body_line program.now number body.now) }
{
    put_head(text, b"body ", number as usize)?;
    put_what(text, body)?;
    put_sets(text, program, sets, number)?;
    put(text, b"\n")
}

// Appends a body's line and those of its statements.
fn put_body_lines(
    text: &mut Vec<u8>,
    program: &Program,
    sets: &VarSets,
    number: u16,
    body: &Body,
) -> Result<(), Memory>
    requires sets { AreSetsOf program.now sets.now }
    requires there { number < length program.now.bodies }
    ensures { OnOk result
        (text.new.items ≡ text.old.items ++ body_lines program.now number body.now) }
{
    put_body(text, program, sets, number, body)?;
    put_stmts(text, program, body)?;
    Ok(())
}

fn put_body_at(
    text: &mut Vec<u8>,
    program: &Program,
    sets: &VarSets,
    number: u16,
) -> Result<(), Memory>
    requires sets { AreSetsOf program.now sets.now }
    requires there { number < length program.now.bodies }
    ensures { OnOk result (text.new.items ≡ text.old.items ++ body_at program.now number) }
{
    match program.bodies.get(number as usize) {
        Some(body) => put_body_lines(text, program, sets, number, body),
        None => Ok(()),
    }
}

fn put_bodies(text: &mut Vec<u8>, program: &Program, sets: &VarSets) -> Result<(), Memory>
    requires sets { AreSetsOf program.now sets.now }
    requires count { length program.now.bodies < 2 ^ 16 }
    ensures { OnOk result
        (text.new.items ≡ text.old.items ++ lines_of (body_lines program.now) program.now.bodies) }
{
    for number in 0..program.bodies.len() {
        put_body_at(text, program, sets, number as u16)?;
    }
    Ok(())
}

/// The static tables of a program with its sets and a plan of it, as `ppd show` writes them. For each
/// body, from 0, its line `body B WHAT used NAMES defined NAMES` and a line `stmt S PLACE KIND` for each of
/// its statements; then for each block of the plan, from 0, its line `block B WHAT prelog NAMES postlog
/// NAMES`, where a returned value stands as `value`; then for each unit, from 0, its line `unit U START
/// reads NAMES`. NAMES are those of the variables that have a cell in the list, each variable once, or `-`.
/// `Memory` is want of memory.
pub fn table(
    alloc: Global,
    program: &Program,
    sets: &VarSets,
    plan: &Plan,
) -> Result<Vec<u8>, Memory>
    requires program { IsValid program.now }
    requires sets { AreSetsOf program.now sets.now }
    ensures { IfOk result (λ text. text.items ≡ table_of program.now plan.now) }
{
    let mut text = Vec::new(alloc);
    put_bodies(&mut text, program, sets)?;
    put_lines(&mut text, program, plan.blocks.as_slice())?;
    put_lines(&mut text, program, plan.units.as_slice())?;
    Ok(text)
}
