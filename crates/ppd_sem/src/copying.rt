ghost use Rattle.std.specs.Prelude.{◌≡◌, IfOk, OnErr, OnOk};
ghost use Rattle.std.specs.Bool.{Decides};
ghost use Rattle.ppd_sem.specs.Printed.{printed_before, unprinted};

use crate::proc::{Frame, Proc, Todo};
use crate::stack::Stack;
use ppd_ast::{Memory, Nums, Status};
use std::alloc::Global;

fn copy_values(values: &Nums) -> Result<Nums, Memory>
    ensures { IfOk result (λ copy. copy ≡ values.now) }
{
    Ok(values.clone()?)
}

fn copy_frame(frame: &Frame) -> Result<Frame, Memory>
    ensures { IfOk result (λ copy. copy ≡ frame.now) }
{
    Ok(Frame {
        body: frame.body,
        cells: copy_values(&frame.cells)?,
        call: frame.call,
    })
}

fn copied_frames(alloc: Global, frames: &[Frame]) -> Result<Vec<Frame>, Memory>
    ensures { IfOk result (λ copies. copies.items ≡ frames.now) }
{
    let mut copies = Vec::new(alloc);
    for frame in frames {
        copies.push(copy_frame(frame)?)?;
    }
    Ok(copies)
}

fn copy_frames(frames: &Stack<Frame>) -> Result<Stack<Frame>, Memory>
    ensures { IfOk result (λ copy. copy ≡ frames.now) }
{
    let copies = copied_frames(frames.allocator(), frames.items.as_slice())?;
    Ok(Stack::from_vec(copies))
}

fn copy_todo(todo: &Stack<Todo>) -> Result<Stack<Todo>, Memory>
    ensures { IfOk result (λ copy. copy ≡ todo.now) }
{
    Ok(Stack::from_vec(todo.items.clone()?))
}

fn is_same_status(one: Option<Status>, other: Option<Status>) -> bool
    ensures { Decides result (one ≡ other) }
{
    match (one, other) {
        (None, None) => true,
        (Some(one), Some(other)) => one == other,
        (None, Some(_)) | (Some(_), None) => false,
    }
}

impl Proc {
    /// The same process state, but that nothing was printed. `Memory` is want of memory.
    pub fn copy_unprinted(&self) -> Result<Proc, Memory>
        ensures { IfOk result (λ copy. copy ≡ unprinted self.now) }
    {
        Ok(Proc {
            frames: copy_frames(&self.frames)?,
            todo: copy_todo(&self.todo)?,
            answers: copy_values(&self.answers)?,
            below: self.below,
            budget: self.budget,
            spent: self.spent,
            steps: self.steps,
            prints: Nums::new(self.frames.allocator()),
            status: self.status,
        })
    }

    /// An equal process state. `Memory` is want of memory.
    pub fn copy(&self) -> Result<Proc, Memory>
        ensures { IfOk result (λ copy. copy ≡ self.now) }
    {
        let prints = copy_values(&self.prints)?;
        let mut copy = self.copy_unprinted()?;
        copy.prints = prints;
        Ok(copy)
    }

    /// Whether the process states are equal but for what was printed. It takes no memory.
    pub fn same_unprinted(&self, other: &Proc) -> bool
        ensures { Decides result (unprinted self.now ≡ unprinted other.now) }
    {
        self.frames.is_same(&other.frames)
            & self.todo.is_same(&other.todo)
            & (self.answers == other.answers)
            & (self.below == other.below)
            & (self.budget == other.budget)
            & (self.spent == other.spent)
            & (self.steps == other.steps)
            & is_same_status(self.status, other.status)
    }

    /// Whether the process states are equal. It takes no memory.
    pub fn same(&self, other: &Proc) -> bool
        ensures { Decides result (self.now ≡ other.now) }
    {
        self.same_unprinted(other) & (self.prints == other.prints)
    }

    /// Goes on to this state, whose prints come after those that were printed before. `Memory` is want of
    /// memory: the process state is as before.
    pub fn go_to(&mut self, after: Proc) -> Result<(), Memory>
        ensures ok { OnOk result (self.new ≡ printed_before self.old.prints after) }
        ensures err { OnErr result (self.new ≡ self.old) }
    {
        let Proc {
            frames,
            todo,
            answers,
            below,
            budget,
            spent,
            steps,
            prints,
            status,
        } = after;
        self.prints.append(prints.into_vec())?;
        self.frames = frames;
        self.todo = todo;
        self.answers = answers;
        self.below = below;
        self.budget = budget;
        self.spent = spent;
        self.steps = steps;
        self.status = status;
        Ok(())
    }
}
