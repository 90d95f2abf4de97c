ghost use Rattle.std.specs.Prelude.{◌≡◌, ◌+◌, ◌<◌, ◌^◌, [], ◌∷◌, length, IfOk, None};
ghost use Rattle.ppd_sem.specs.Process.{new_frame as new_frame_of, started};
ghost use Rattle.ppd_sem.specs.Runs.{IsRunnable, IsRunning};

use crate::frame::new_frame;
use crate::proc::{Frame, Proc, Todo};
use crate::stack::Stack;
use crate::tables::top_at;
use crate::todos::stack_of;
use ppd_ast::{Memory, Nums, Plan, Program};
use std::alloc::Global;

/// A stack of one frame.
pub(crate) fn only_frame(alloc: Global, frame: Frame) -> Result<Stack<Frame>, Memory>
    ensures { IfOk result (λ frames. frames ≡ frame ∷ []) }
{
    let mut frames = Stack::new(alloc);
    frames.push(frame)?;
    Ok(frames)
}

/// A process state before its first step, with these frames and statements to do.
pub(crate) fn begun(frames: Stack<Frame>, todo: Stack<Todo>, below: u8, budget: u32) -> Proc
    ensures { result ≡ record {
      frames = frames;
      todo = todo;
      answers = [];
      below = below;
      budget = budget;
      spent = 0;
      steps = 0;
      prints = [];
      status = None;
    } }
{
    let alloc = frames.allocator();
    Proc {
        frames,
        todo,
        answers: Nums::new(alloc),
        below,
        budget,
        spent: 0,
        steps: 0,
        prints: Nums::new(alloc),
        status: None,
    }
}

/// The frame of a process's body.
fn first_frame(alloc: Global, program: &Program, body: u16) -> Result<Stack<Frame>, Memory>
    ensures { IfOk result (λ frames. frames ≡ new_frame_of program.now body [] None ∷ []) }
{
    let frame = new_frame(program, body, Nums::new(alloc), None)?;
    only_frame(alloc, frame)
}

impl Proc {
    /// The state of this process before its first step. Its budget is 1 to 500,000.
    /// `Memory` is want of memory.
    pub fn start(
        alloc: Global,
        program: &Program,
        plan: &Plan,
        process: u8,
        budget: u32,
    ) -> Result<Proc, Memory>
        requires program { IsRunnable program.now }
        requires process { program.now.functions + process < length program.now.bodies }
        requires range { program.now.functions + process < 2 ^ 16 }
        ensures started { IfOk result (λ proc. proc ≡ started program.now plan.now process budget) }
        ensures running { IfOk result (λ proc. IsRunning program.now proc) }
    {
        let functions = program.functions;
        let body = functions + process as u16;
        let frames = first_frame(alloc, program, body)?;
        let todo = stack_of(alloc, top_at(program, body))?;
        Ok(begun(frames, todo, 0, budget))
    }
}
