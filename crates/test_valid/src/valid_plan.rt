ghost use Rattle.std.specs.Prelude.{◌<◌, ◌↔◌, IsTrue, IsSomeAnd, slice_get};
ghost use Rattle.std.specs.List.{All};
ghost use Rattle.std.specs.List.Sorted.{IsStrictlyIncreasing};
ghost use Rattle.ppd_ast.specs.ValidPlan.{AreCells, IsValidPolicy, IsFunctionBlock, IsProcessBlock, IsLoopBlock, IsValidBlock, IsValidPlan};

use crate::numbered::are_numbered;
use ppd_ast::limits::MOST_POLICY;
use ppd_ast::{Block, BlockKind, Body, Plan, Policy, Program, Stmt, Unit};

fn is_rising(cells: &[u16]) -> bool
    ensures { IsTrue result ↔ IsStrictlyIncreasing cells.now }
{
    for index in 1..cells.len() {
        if cells[index - 1] >= cells[index] {
            return false;
        }
    }
    true
}

fn are_below(cells: &[u16], limit: usize) -> bool
    ensures { IsTrue result ↔ All (λ c. c < limit) cells.now }
{
    cells.iter().all(|cell| (*cell as usize) < limit)
}

fn are_cells(cells: &[u16], limit: usize) -> bool
    ensures { IsTrue result ↔ AreCells limit cells.now }
{
    is_rising(cells) && are_below(cells, limit)
}

fn is_valid_policy(policy: &Policy) -> bool
    ensures { IsTrue result ↔ IsValidPolicy policy.now }
{
    policy.leaf <= MOST_POLICY && policy.loops <= MOST_POLICY
}

fn is_function_block(block: &Block, body: &Body) -> bool
    ensures { IsTrue result ↔ IsFunctionBlock body.now block.now }
{
    are_cells(block.prelog.as_slice(), body.params as usize)
        && block.postlog.len() == 0
        && block.value == body.value
}

fn is_process_block(block: &Block) -> bool
    ensures { IsTrue result ↔ IsProcessBlock block.now }
{
    block.prelog.len() == 0 && block.postlog.len() == 0 && !block.value
}

fn is_loop_block(block: &Block, body: &Body) -> bool
    ensures { IsTrue result ↔ IsLoopBlock body.now.cells block.now }
{
    are_cells(block.prelog.as_slice(), body.cells as usize)
        && are_cells(block.postlog.as_slice(), body.cells as usize)
        && !block.value
}

fn is_block_of_function(block: &Block, bodies: &[Body], number: u16) -> bool
    ensures { IsTrue result ↔ IsSomeAnd (slice_get bodies.now number) (λ b. IsFunctionBlock b block.now) }
{
    match bodies.get(number as usize) {
        None => false,
        Some(body) => is_function_block(block, body),
    }
}

fn is_loop_block_in(block: &Block, bodies: &[Body], number: u16) -> bool
    ensures { IsTrue result ↔ IsSomeAnd (slice_get bodies.now number) (λ b. IsLoopBlock b.cells block.now) }
{
    match bodies.get(number as usize) {
        None => false,
        Some(body) => is_loop_block(block, body),
    }
}

fn is_block_of_loop(block: &Block, stmts: &[Stmt], bodies: &[Body], number: u32) -> bool
    ensures { IsTrue result ↔ IsSomeAnd (slice_get stmts.now number)
        (λ s. IsSomeAnd (slice_get bodies.now s.body) (λ b. IsLoopBlock b.cells block.now)) }
{
    match stmts.get(number as usize) {
        None => false,
        Some(stmt) => is_loop_block_in(block, bodies, stmt.body),
    }
}

fn is_valid_block(block: &Block, program: &Program) -> bool
    ensures { IsTrue result ↔ IsValidBlock program.now block.now }
{
    let bodies = program.bodies.as_slice();
    match block.kind {
        BlockKind::Function(number) => is_block_of_function(block, bodies, number),
        BlockKind::Process(_) => is_process_block(block),
        BlockKind::Loop(number) => {
            is_block_of_loop(block, program.stmts.as_slice(), bodies, number)
        }
    }
}

fn is_valid_unit(unit: &Unit, cells: usize) -> bool
    ensures { IsTrue result ↔ AreCells cells unit.now.cells }
{
    are_cells(unit.cells.as_slice(), cells)
}

fn are_valid_blocks(blocks: &[Block], program: &Program) -> bool
    ensures { IsTrue result ↔ All (IsValidBlock program.now) blocks.now }
{
    for index in 0..blocks.len() {
        if !is_valid_block(&blocks[index], program) {
            return false;
        }
    }
    true
}

fn are_valid_units(units: &[Unit], cells: usize) -> bool
    ensures { IsTrue result ↔ All (λ unit. AreCells cells unit.cells) units.now }
{
    for index in 0..units.len() {
        if !is_valid_unit(&units[index], cells) {
            return false;
        }
    }
    true
}

/// Whether the plan is valid for the program: one that the calls of the crates may be given with it.
pub fn is_valid_plan(plan: &Plan, program: &Program) -> bool
    ensures { IsTrue result ↔ IsValidPlan program.now plan.now }
{
    let bodies = program.bodies.as_slice();
    let stmts = program.stmts.as_slice();
    if !is_valid_policy(&plan.policy) {
        return false;
    }
    if !are_numbered(plan.blocks.as_slice(), stmts, plan.policy, bodies) {
        return false;
    }
    if !are_numbered(plan.units.as_slice(), stmts, plan.policy, bodies) {
        return false;
    }
    if !are_valid_blocks(plan.blocks.as_slice(), program) {
        return false;
    }
    are_valid_units(plan.units.as_slice(), program.starts.len())
}
