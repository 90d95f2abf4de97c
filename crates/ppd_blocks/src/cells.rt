// The shared cells that a unit may read.
ghost use Rattle.std.specs.Prelude.{◌≡◌, true, length, IfOk, option_to_list};
ghost use Rattle.std.specs.List.{flat_map};
ghost use Rattle.ppd_ast.specs.Valid.{IsValid};
ghost use Rattle.ppd_ast.specs.Members.{AreBelow, those};
ghost use Rattle.ppd_sets.specs.Reach.{closure, leads};
ghost use Rattle.ppd_sets.specs.WorkList.{AreRowsBelow};
ghost use Rattle.ppd_sets.specs.Gained.{Gains, HasCells};
ghost use Rattle.ppd_sets.specs.Used.{reads_at, sorted};

use ppd_ast::{Cells, Ids, Memory, Program, Seq};
use ppd_sets::{CellSet, add_shared_reads, reached};
use std::alloc::Global;

// Adds the shared cells that a statement may read, if it is there.
#[tactic(auto, using(crate::proofs::Reading::reads_past))]
fn add_at(set: &mut CellSet, program: &Program, stmt: u32)
    requires { IsValid program.now }
    ensures { Gains set.old set.new (reads_at true program.now stmt) }
{
    match program.stmt(stmt) {
        None => {}
        Some(found) => add_shared_reads(set, program, &found.kind),
    }
}

// The shared cells that these statements may read.
fn read_by(program: &Program, stmts: &[u32]) -> CellSet
    requires { IsValid program.now }
    ensures { HasCells result (flat_map (reads_at true program.now) stmts.now) }
{
    let mut set = CellSet::new();
    for stmt in stmts {
        add_at(&mut set, program, *stmt);
    }
    set
}

// The shared cells that the statements may read to which the rows lead from these starts.
fn cells_from(
    alloc: Global,
    program: &Program,
    rows: &Seq<Ids>,
    starts: &[u32],
) -> Result<Cells, Memory>
    requires valid { IsValid program.now }
    requires rows { AreRowsBelow rows.now }
    requires long { length rows.now ≡ length program.now.stmts }
    requires starts { AreBelow (length program.now.stmts) starts.now }
    ensures { IfOk result (λ cells. cells ≡ sorted (flat_map (reads_at true program.now)
        (those (length program.now.stmts) (leads (closure rows.now) starts.now)))) }
{
    let stmts = reached(alloc, rows.as_slice(), starts)?;
    let set = read_by(program, stmts.as_slice());
    let cells = set.to_list(alloc)?;
    Ok(cells)
}

// The same from the statement that a unit begins with, if it has one.
pub(crate) fn cells_of(
    alloc: Global,
    program: &Program,
    rows: &Seq<Ids>,
    begin: Option<u32>,
) -> Result<Cells, Memory>
    requires valid { IsValid program.now }
    requires rows { AreRowsBelow rows.now }
    requires long { length rows.now ≡ length program.now.stmts }
    requires begin { AreBelow (length program.now.stmts) (option_to_list begin) }
    ensures { IfOk result (λ cells. cells ≡ sorted (flat_map (reads_at true program.now)
        (those (length program.now.stmts) (leads (closure rows.now) (option_to_list begin))))) }
{
    match begin {
        None => cells_from(alloc, program, rows, &[]),
        Some(first) => cells_from(alloc, program, rows, &[first]),
    }
}
