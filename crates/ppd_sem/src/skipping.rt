ghost use Rattle.std.specs.Prelude.{◌≡◌, ◌<◌};
ghost use Rattle.ppd_sem.specs.Blocks.{frames_past, head_stmt as head_stmt_of, skipped};
ghost use Rattle.ppd_sem.specs.Entries.{Begins};
ghost use Rattle.ppd_sem.specs.Process.{need_of, on_top, with_values};
ghost use Rattle.ppd_sem.specs.Runs.{IsNumbered, IsRunnable, IsRunning};

use crate::blocks::{postlog_cells, write_values};
use crate::feeding::{charge, finish};
use crate::frames::{into_at, receive_at};
use crate::looking::look;
use crate::proc::{Frame, Need, Proc, Todo};
use crate::stack::Stack;
use ppd_ast::{Plan, Program};

/// Writes values at these numbers in the top frame.
fn write_all(frames: &mut Stack<Frame>, numbers: &[u16], values: &[i64])
    ensures { frames.new ≡ on_top (with_values numbers.now values.now) frames.old }
{
    let count = frames.items.len();
    if count > 0 {
        write_values(&mut frames.items[count - 1].cells, numbers, values);
    }
}

/// The statement of the head, and 0 where nothing is to do.
fn head_stmt(todo: &Stack<Todo>) -> u32
    ensures { result ≡ head_stmt_of todo.now }
{
    match todo.top() {
        Some(todo) => todo.stmt,
        None => 0,
    }
}

/// Does to the frames what the block that the step would enter did.
fn apply(program: &Program, plan: &Plan, proc: &mut Proc, need: Need, values: &[i64])
    ensures { proc.new ≡ record proc.old { frames = frames_past program.now plan.now values.now need proc.old } }
{
    match need {
        Need::Enter { block, .. } => {
            write_all(&mut proc.frames, postlog_cells(plan, block), values);
        }
        _ => {
            let into = into_at(program, head_stmt(&proc.todo));
            receive_at(&mut proc.frames, into, values.first().copied());
        }
    }
}

/// Goes past the loop or the call that comes next without running it: the values of its postlog are
/// written in its place, of a loop to the local cells that it may write, of a call that gives a
/// value the first of them to the cell that receives it. It is one step more, which costs what the
/// step costs that begins the block; it takes no memory.
pub fn skip(program: &Program, plan: &Plan, proc: &mut Proc, values: &[i64])
    requires program { IsRunnable program.now }
    requires plan { IsNumbered plan.now }
    requires proc { IsRunning program.now proc.old }
    requires begins { Begins (need_of program.now plan.now proc.old) }
    ensures skipped { proc.new ≡ skipped program.now plan.now values.now proc.old }
    ensures kept { IsRunning program.now proc.new }
{
    let need = look(program, plan, proc);
    apply(program, plan, proc, need, values);
    finish(proc);
    charge(plan, need, proc);
}
