ghost use Rattle.std.specs.Prelude.{◌≡◌, ◌<◌, ◌∷◌, [], ◌++◌, map, length, IfOk, OnOk, option_to_list};
ghost use Rattle.std.specs.List.{flat_map};
ghost use Rattle.ppd_ast.specs.Numbered.{numbers_of};
ghost use Rattle.ppd_ast.specs.Valid.{IsValid};
ghost use Rattle.ppd_ast.specs.Members.{AreBelow};
ghost use Rattle.ppd_blocks.specs.Walk.{unit_rows, begin_of};
ghost use Rattle.ppd_blocks.specs.Starts.{unit_starts_at, unit_of, units_of};

use crate::cells::cells_of;
use crate::ways::{begin_of, contains, is_left_at, unit_rows};
use ppd_ast::{Body, Ids, Memory, Program, Seq, Start, Unit};
use ppd_sets::end_of;
use std::alloc::Global;

// A program, its block loops, and for each statement its successors in its unit.
#[derive(Drop)]
struct Ways<'a> {
    program: &'a Program,
    loops: &'a [u32],
    rows: &'a Seq<Ids>,
}

// Adds the unit of this start.
fn add_unit(units: &mut Seq<Unit>, alloc: Global, ways: &Ways, start: Start) -> Result<(), Memory>
    requires valid { IsValid ways.now.program.now }
    requires rows { ways.now.rows.now ≡ unit_rows ways.now.program.now ways.now.loops.now }
    requires begin { AreBelow (length ways.now.program.now.stmts)
        (option_to_list (begin_of ways.now.program.now ways.now.loops.now start)) }
    ensures { OnOk result
        (units.new ≡ units.old ++ unit_of ways.now.program.now ways.now.loops.now start ∷ []) }
{
    let begin = begin_of(ways.program, ways.loops, start);
    let cells = cells_of(alloc, ways.program, ways.rows, begin)?;
    units.push(Unit { start, cells })
}

// Adds the units that start at a statement.
fn add_at(units: &mut Seq<Unit>, alloc: Global, ways: &Ways, stmt: u32) -> Result<(), Memory>
    requires valid { IsValid ways.now.program.now }
    requires rows { ways.now.rows.now ≡ unit_rows ways.now.program.now ways.now.loops.now }
    requires there { stmt < length ways.now.program.now.stmts }
    ensures { OnOk result
        (units.new
        ≡ units.old
        ++ map (unit_of ways.now.program.now ways.now.loops.now)
        (unit_starts_at ways.now.program.now ways.now.loops.now stmt)) }
{
    if is_left_at(ways.program, stmt) {
        return add_unit(units, alloc, ways, Start::After(stmt));
    }
    if !contains(ways.loops, stmt) {
        return Ok(());
    }
    add_unit(units, alloc, ways, Start::Enter(stmt))?;
    add_unit(units, alloc, ways, Start::Exit(stmt))
}

// Adds the units that start at a body's statements.
fn add_at_stmts(
    units: &mut Seq<Unit>,
    alloc: Global,
    ways: &Ways,
    body: &Body,
) -> Result<(), Memory>
    requires valid { IsValid ways.now.program.now }
    requires rows { ways.now.rows.now ≡ unit_rows ways.now.program.now ways.now.loops.now }
    ensures { OnOk result
        (units.new ≡ units.old
        ++ map (unit_of ways.now.program.now ways.now.loops.now)
        (flat_map (unit_starts_at ways.now.program.now ways.now.loops.now)
        (numbers_of ways.now.program.now.stmts body.now))) }
{
    for number in body.first..end_of(ways.program.stmts.as_slice(), body) {
        add_at(units, alloc, ways, number)?;
    }
    Ok(())
}

/// The synchronization units of a program whose block loops are these `while`s, by statement, in
/// the order of their numbers: for each body its entry, then for each statement, rising, the start
/// after a call or a synchronization, and the entry and then the exit of a block loop. A unit's
/// cells are those of the shared variables that the expressions of some statement may read to which
/// a flow path leads from the unit's start without passing another start of a unit, arrays whole,
/// rising. `Memory` is want of memory.
pub fn units(alloc: Global, program: &Program, loops: &[u32]) -> Result<Seq<Unit>, Memory>
    requires { IsValid program.now }
    ensures { IfOk result (λ units. units ≡ units_of program.now loops.now) }
{
    let rows = unit_rows(alloc, program, loops)?;
    let ways = Ways {
        program,
        loops,
        rows: &rows,
    };
    let mut units = Seq::new(alloc);
    let bodies = program.bodies.as_slice();
    for number in 0..bodies.len() {
        add_unit(&mut units, alloc, &ways, Start::Entry(number as u16))?;
        add_at_stmts(&mut units, alloc, &ways, &bodies[number])?;
    }
    Ok(units)
}
