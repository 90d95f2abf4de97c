ghost use Rattle.std.specs.Prelude.{◌≡◌, ◌≤◌, IfOk, None, [], ◌∷◌, true, false};
ghost use Rattle.ppd_ast.specs.declared.limits.TheConstants.{MOST_CALLS};
ghost use Rattle.ppd_ast.specs.Valid.{IsValid};
ghost use Rattle.ppd_ast.specs.ValidPlan.{IsValidPlan};
ghost use Rattle.ppd_sem.specs.Blocks.{at_block as at_block_of, block_todo as todo_of_block};
ghost use Rattle.ppd_sem.specs.Process.{new_frame as new_frame_of, with_values};
ghost use Rattle.ppd_sem.specs.Runs.{IsRunning};

use crate::blocks::{block_body, block_kind, prelog_cells, write_values};
use crate::frame::new_frame;
use crate::proc::{Frame, Proc, Todo};
use crate::stack::Stack;
use crate::starting::{begun, only_frame};
use crate::tables::top_at;
use crate::todos::stack_of;
use ppd_ast::{BlockKind, Memory, Nums, Plan, Program};
use std::alloc::Global;

/// The frame of a body, with these values in these cells and zeros in the others.
fn frame_with(
    alloc: Global,
    program: &Program,
    body: u16,
    numbers: &[u16],
    values: &[i64],
) -> Result<Frame, Memory>
    ensures { IfOk result
        (λ frame. frame ≡ record (new_frame_of program.now body [] None)
        { cells = with_values numbers.now values.now (new_frame_of program.now body [] None).cells }) }
{
    let mut frame = new_frame(program, body, Nums::new(alloc), None)?;
    write_values(&mut frame.cells, numbers, values);
    Ok(frame)
}

/// The loop, as one that was entered.
fn entered_loop(alloc: Global, stmt: u32) -> Result<Stack<Todo>, Memory>
    ensures { IfOk result (λ todo. todo ≡ record { stmt = stmt; entered = true; offered = false } ∷ []) }
{
    let mut todo = Stack::new(alloc);
    todo.push(Todo {
        stmt,
        entered: true,
        offered: false,
    })?;
    Ok(todo)
}

/// What is to do in a block.
fn block_todo(alloc: Global, program: &Program, kind: BlockKind) -> Result<Stack<Todo>, Memory>
    ensures { IfOk result (λ todo. todo ≡ todo_of_block program.now kind) }
{
    match kind {
        BlockKind::Function(body) => stack_of(alloc, top_at(program, body)),
        BlockKind::Process(body) => stack_of(alloc, top_at(program, body)),
        BlockKind::Loop(stmt) => entered_loop(alloc, stmt),
    }
}

impl Proc {
    /// The state of a process that begins at this block, as a log interval does: with the values of
    /// the block's prelog in its cells and zeros in the others, while `depth` calls are open, those
    /// of the block's function among them, at most `MOST_CALLS`. A loop is one that was entered. Its budget
    /// is 1 to 500,000. `Memory` is want of memory.
    pub fn at_block(
        alloc: Global,
        program: &Program,
        plan: &Plan,
        block: u16,
        values: &[i64],
        depth: u8,
        budget: u32,
    ) -> Result<Proc, Memory>
        requires program { IsValid program.now }
        requires plan { IsValidPlan program.now plan.now }
        requires depth { depth ≤ MOST_CALLS }
        ensures at { IfOk result (λ proc. proc ≡ at_block_of program.now plan.now block values.now depth budget) }
        ensures running { IfOk result (λ proc. IsRunning program.now proc) }
    {
        let kind = block_kind(plan, block);
        let body = block_body(program, kind);
        let frame = frame_with(alloc, program, body, prelog_cells(plan, block), values)?;
        let frames = only_frame(alloc, frame)?;
        let todo = block_todo(alloc, program, kind)?;
        Ok(begun(frames, todo, depth, budget))
    }
}
