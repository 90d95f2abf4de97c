ghost use Rattle.std.specs.Prelude.{◌≡◌};
ghost use Rattle.ppd_sem.specs.Blocks.{block_body as body_of_block, block_kind as kind_of_block, block_unit as unit_of_block, postlog_cells as postlog_cells_of, prelog_cells as prelog_cells_of};
ghost use Rattle.ppd_sem.specs.Runs.{IsNumbered};
ghost use Rattle.ppd_sem.specs.Process.{with_values};

use crate::tables::find_unit;
use ppd_ast::{BlockKind, Nums, Plan, Program, Start};

/// What a block is the code of; a number past the plan's blocks is taken as body 0.
pub fn block_kind(plan: &Plan, block: u16) -> BlockKind
    ensures { result ≡ kind_of_block plan.now block }
{
    match plan.blocks.get(block as usize) {
        Some(block) => block.kind,
        None => BlockKind::Process(0),
    }
}

/// The unit of a block's own start.
pub fn block_unit(plan: &Plan, kind: BlockKind) -> u16
    requires plan { IsNumbered plan.now }
    ensures { result ≡ unit_of_block plan.now kind }
{
    match kind {
        BlockKind::Function(body) => find_unit(plan, Start::Entry(body)),
        BlockKind::Process(body) => find_unit(plan, Start::Entry(body)),
        BlockKind::Loop(stmt) => find_unit(plan, Start::Enter(stmt)),
    }
}

/// The body that a block's code stands in.
pub(crate) fn block_body(program: &Program, kind: BlockKind) -> u16
    ensures { result ≡ body_of_block program.now kind }
{
    match kind {
        BlockKind::Function(body) => body,
        BlockKind::Process(body) => body,
        BlockKind::Loop(stmt) => match program.stmts.get(stmt as usize) {
            Some(stmt) => stmt.body,
            None => 0,
        },
    }
}

/// The local cells of a block's prelog, and none past the plan's blocks.
pub fn prelog_cells(plan: &Plan, block: u16) -> &[u16]
    ensures { result.now ≡ prelog_cells_of plan.now block }
{
    match plan.blocks.get(block as usize) {
        Some(block) => block.prelog.as_slice(),
        None => &[],
    }
}

/// The local cells of a block's postlog, and none past the plan's blocks.
pub fn postlog_cells(plan: &Plan, block: u16) -> &[u16]
    ensures { result.now ≡ postlog_cells_of plan.now block }
{
    match plan.blocks.get(block as usize) {
        Some(block) => block.postlog.as_slice(),
        None => &[],
    }
}

/// Writes values at these numbers, each to its own.
pub(crate) fn write_values(cells: &mut Nums, numbers: &[u16], values: &[i64])
    ensures { cells.new ≡ with_values numbers.now values.now cells.old }
{
    let count = numbers.len().min(values.len());
    for index in 0..count {
        cells.set(numbers[index] as usize, values[index]);
    }
}
