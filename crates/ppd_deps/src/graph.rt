ghost use Rattle.std.specs.List.{range_with_len};
ghost use Rattle.std.specs.Prelude.{◌≡◌, length, map, replicate, [], IfOk};
ghost use Rattle.ppd_ast.specs.Valid.{IsValid};
ghost use Rattle.ppd_sets.specs.SetsOf.{AreSetsOf};
ghost use Rattle.ppd_deps.specs.Edges.{edges_of};
ghost use Rattle.ppd_deps.specs.Tables.{AreTables, IsDepGraph};

use crate::adding::fill;
use crate::edges::{DepGraph, StaticEdge};
use crate::tables::{Tables, tables_of};
use ppd_ast::{Memory, Program, Seq};
use ppd_sets::VarSets;
use std::alloc::Global;

fn empty_rows(alloc: Global, count: usize) -> Result<Vec<Seq<StaticEdge>>, Memory>
    ensures { IfOk result (λ rows. rows.items ≡ replicate count []) }
{
    let mut rows = Seq::new(alloc);
    for _index in 0..count {
        rows.push(Seq::new(alloc))?;
    }
    Ok(rows.into_vec())
}

// The edges into each statement, by the tables.
fn rows_of(
    alloc: Global,
    program: &Program,
    tables: &Tables,
) -> Result<Seq<Seq<StaticEdge>>, Memory>
    requires valid { IsValid program.now }
    requires tables { AreTables program.now tables.now }
    ensures { IfOk result
        (λ rows. rows ≡ map (edges_of program.now) (range_with_len 0 (length program.now.stmts))) }
{
    let mut rows = empty_rows(alloc, program.stmts.len())?;
    fill(rows.as_mut_slice(), alloc, program, tables)?;
    Ok(Seq::from_vec(rows))
}

/// The static edges of a program, by its sets of variables. A data edge for a shared variable leads
/// from each statement that writes it, in a body that a chain of calls reaches from a process, to
/// each that may read it. For a local variable it leads from a write to each statement that may read
/// it and to which a flow path leads from there without another write of the variable between where
/// that is a scalar; a write of an array's element ends no path. A parameter is written by each call
/// of its function, at the function's entry; a receiving local by the `return` of the called
/// function, behind the call. A control edge leads from the `if` or `while` in which a statement
/// directly stands, else from the entry of its body, and from a `while` to itself. The paths of each
/// write are followed by a work list, which goes on from each statement once. `Memory` is want of
/// memory.
pub fn static_graph(alloc: Global, program: &Program, sets: &VarSets) -> Result<DepGraph, Memory>
    requires valid { IsValid program.now }
    requires sets { AreSetsOf program.now sets.now }
    ensures { IfOk result (λ graph. IsDepGraph program.now graph) }
{
    let tables = tables_of(alloc, program, sets)?;
    let rows = rows_of(alloc, program, &tables)?;
    Ok(DepGraph { rows })
}
