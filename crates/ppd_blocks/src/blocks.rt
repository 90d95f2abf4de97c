// The blocks with what their prelogs and postlogs hold.
ghost use Rattle.std.specs.Prelude.{◌≡◌, [], ◌++◌, map, slice_get, IfOk, OnOk, false};
ghost use Rattle.std.specs.List.{flat_map, range_with_len};
ghost use Rattle.ppd_sets.specs.Gained.{Gains};
ghost use Rattle.ppd_sets.specs.SetsOf.{AreSetsOf};
ghost use Rattle.ppd_sets.specs.Used.{sorted, local_in, reads_at, writes_at};
ghost use Rattle.ppd_blocks.specs.Blocks.{prelog_of, postlog_of, filled, loop_in};
ghost use Rattle.ppd_ast.specs.Lookups.{body_numbered};

use ppd_ast::{Block, BlockKind, Cells, Ids, Memory, Program, Seq};
use ppd_sets::{CellSet, VarSets, add_cell};
use std::alloc::Global;

// Appends the loop that is a block of this kind.
fn push_loop(ids: &mut Ids, kind: BlockKind) -> Result<(), Memory>
    ensures { OnOk result (ids.new ≡ ids.old ++ loop_in kind) }
{
    match kind {
        BlockKind::Loop(stmt) => ids.push(stmt),
        BlockKind::Function(_) | BlockKind::Process(_) => Ok(()),
    }
}

// The loops among the blocks.
pub(crate) fn loops_among(alloc: Global, blocks: &[Block]) -> Result<Ids, Memory>
    ensures { IfOk result (λ ids. ids ≡ flat_map (λ b. loop_in b.kind) blocks.now) }
{
    let mut ids = Ids::new(alloc);
    for block in blocks {
        push_loop(&mut ids, block.kind)?;
    }
    Ok(ids)
}

// The cells from 0 on, so many.
fn first_cells(alloc: Global, count: u16) -> Result<Cells, Memory>
    ensures { IfOk result (λ cells. cells ≡ range_with_len 0 count) }
{
    let mut cells = Cells::new(alloc);
    for cell in 0..count {
        cells.push(cell)?;
    }
    Ok(cells)
}

// The cells of a function's parameters.
fn params_of(alloc: Global, program: &Program, body: u16) -> Result<Cells, Memory>
    ensures { IfOk result (λ cells. cells ≡ range_with_len 0 (body_numbered program.now body).params) }
{
    match program.body(body) {
        None => Ok(Cells::new(alloc)),
        Some(found) => {
            let cells = first_cells(alloc, found.params)?;
            Ok(cells)
        }
    }
}

fn loop_used<'a>(program: &'a Program, sets: &'a VarSets, stmt: u32) -> &'a [u16]
    requires { AreSetsOf program.now sets.now }
    ensures { result.now ≡ local_in program.now (reads_at false program.now) stmt }
{
    if sets.has_stmt(stmt) {
        sets.loop_used(stmt)
    } else {
        &[]
    }
}

fn loop_defined<'a>(program: &'a Program, sets: &'a VarSets, stmt: u32) -> &'a [u16]
    requires { AreSetsOf program.now sets.now }
    ensures { result.now ≡ local_in program.now (writes_at false program.now) stmt }
{
    if sets.has_stmt(stmt) {
        sets.loop_defined(stmt)
    } else {
        &[]
    }
}

fn add_cells(set: &mut CellSet, cells: &[u16])
    ensures { Gains set.old set.new cells.now }
{
    for cell in cells {
        add_cell(set, u32::from(*cell));
    }
}

// The cells of both lists, rising, each once.
fn either(alloc: Global, left: &[u16], right: &[u16]) -> Result<Cells, Memory>
    ensures { IfOk result (λ cells. cells ≡ sorted (left.now ++ right.now)) }
{
    let mut set = CellSet::new();
    add_cells(&mut set, left);
    add_cells(&mut set, right);
    let cells = set.to_list(alloc)?;
    Ok(cells)
}

fn copy_of(alloc: Global, cells: &[u16]) -> Result<Cells, Memory>
    ensures { IfOk result (λ copy. copy ≡ cells.now) }
{
    Ok(Cells::from_vec(cells.to_vec(alloc)?))
}

// What a block's prelog holds.
fn prelog_of(
    alloc: Global,
    program: &Program,
    sets: &VarSets,
    kind: BlockKind,
) -> Result<Cells, Memory>
    requires { AreSetsOf program.now sets.now }
    ensures { IfOk result (λ cells. cells ≡ prelog_of program.now kind) }
{
    match kind {
        BlockKind::Function(body) => params_of(alloc, program, body),
        BlockKind::Process(_) => Ok(Cells::new(alloc)),
        BlockKind::Loop(stmt) => either(
            alloc,
            loop_used(program, sets, stmt),
            loop_defined(program, sets, stmt),
        ),
    }
}

// What a block's postlog holds beside a returned value.
fn postlog_of(
    alloc: Global,
    program: &Program,
    sets: &VarSets,
    kind: BlockKind,
) -> Result<Cells, Memory>
    requires { AreSetsOf program.now sets.now }
    ensures { IfOk result (λ cells. cells ≡ postlog_of program.now kind) }
{
    match kind {
        BlockKind::Loop(stmt) => copy_of(alloc, loop_defined(program, sets, stmt)),
        BlockKind::Function(_) | BlockKind::Process(_) => Ok(Cells::new(alloc)),
    }
}

// The block of that kind with its cells.
fn filled(alloc: Global, program: &Program, sets: &VarSets, block: &Block) -> Result<Block, Memory>
    requires { AreSetsOf program.now sets.now }
    ensures { IfOk result (λ b. b ≡ filled program.now block.now) }
{
    let prelog = prelog_of(alloc, program, sets, block.kind)?;
    let postlog = postlog_of(alloc, program, sets, block.kind)?;
    Ok(Block {
        kind: block.kind,
        prelog,
        postlog,
        value: block.value,
    })
}

// The blocks with their cells.
pub(crate) fn fill(
    alloc: Global,
    program: &Program,
    sets: &VarSets,
    bare: &[Block],
) -> Result<Seq<Block>, Memory>
    requires { AreSetsOf program.now sets.now }
    ensures { IfOk result (λ blocks. blocks ≡ map (filled program.now) bare.now) }
{
    let mut blocks = Seq::new(alloc);
    for block in bare {
        let filled = filled(alloc, program, sets, block)?;
        blocks.push(filled)?;
    }
    Ok(blocks)
}
