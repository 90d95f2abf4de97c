ghost use Rattle.std.specs.Prelude.{◌≡◌, ◌<◌, ◌≤◌, ◌+◌, ◌-◌, ◌^◌, ◌∷◌, ◌++◌, drop, length, [], true, Some, OnOk, OnErr, IfOk, slice_get};
ghost use Rattle.ppd_ast.specs.declared.status.Status.TheVariants as status;
ghost use Rattle.ppd_ast.specs.Lookups.{kind_of};
ghost use Rattle.ppd_sem.specs.Effects.{arguments_of, given, head_deed_of};
ghost use Rattle.ppd_sem.specs.Feeding.{finished, hold_at, invoked};
ghost use Rattle.ppd_sem.specs.Process.{act, act_by_asked, act_by_deed, act_by_need, charged, cost as cost_of, head_deed, need_of, todos, top_frame};
ghost use Rattle.ppd_sem.specs.Runs.{IsHead, IsNumbered, IsRunnable, IsRunning};

use crate::asking::Pause;
use crate::cost::cost;
use crate::effect::Effect;
use crate::frame::{new_frame, values_given};
use crate::frames::{clear_top, return_from, write_top};
use crate::looking::{head, head_effect, look, top_cells};
use crate::proc::{Answer, Need, Proc, Todo};
use crate::tables::{arguments_in, body_in, branch_in, kind_at, top_at};
use crate::todos::{put_before, put_in_place};
use ppd_ast::{Memory, Nums, Plan, Program, Status};

/// Takes the head statement off, with its answers.
pub(crate) fn finish(proc: &mut Proc)
    ensures { proc.new ≡ finished proc.old }
{
    proc.todo.pop();
    proc.answers.clear();
}

/// The values of a call's arguments.
#[tactic(auto, using(crate::proofs::Leads::arguments_used, crate::proofs::Leads::arguments_few))]
pub(crate) fn argument_values(program: &Program, todo: Todo, proc: &Proc) -> Result<Nums, Memory>
    requires { IsHead program.now proc.now todo }
    ensures few { IfOk result (λ values. length values < 2 ^ 16) }
    ensures values { IfOk result
        (λ values. values
        ≡ given program.now.exprs (arguments_of (kind_of program.now todo.stmt))
        (top_frame proc.now.frames).cells proc.now.answers) }
{
    values_given(
        proc.frames.allocator(),
        program.exprs.as_slice(),
        arguments_in(kind_at(program, todo.stmt)),
        top_cells(&proc.frames),
        proc.answers.as_slice(),
    )
}

/// Begins a function, before what is left to do after the call.
fn invoke(
    program: &Program,
    todo: Todo,
    function: u16,
    values: Nums,
    proc: &mut Proc,
) -> Result<(), Memory>
    requires { 0 < length proc.old.todo }
    ensures ok { OnOk result (proc.new ≡ invoked program.now todo function values proc.old) }
    ensures err { OnErr result (proc.new ≡ proc.old) }
{
    let frame = new_frame(program, function, values, Some(todo.stmt))?;
    proc.frames.push(frame)?;
    if put_in_place(&mut proc.todo, top_at(program, function)).is_err() {
        proc.frames.pop();
        return Err(Memory);
    }
    proc.answers.clear();
    Ok(())
}

/// Goes on with the statements in the head's place.
fn go_on(proc: &mut Proc, stmts: &[u32]) -> Result<(), Memory>
    requires { 0 < length proc.old.todo }
    ensures ok { OnOk result
        (proc.new ≡ record proc.old { todo = todos stmts.now ++ drop 1 proc.old.todo; answers = [] }) }
    ensures err { OnErr result (proc.new ≡ proc.old) }
{
    put_in_place(&mut proc.todo, stmts)?;
    proc.answers.clear();
    Ok(())
}

/// Runs the statements before the head statement comes again.
fn turn(proc: &mut Proc, stmts: &[u32]) -> Result<(), Memory>
    ensures ok { OnOk result (proc.new ≡ record proc.old { todo = todos stmts.now ++ proc.old.todo; answers = [] }) }
    ensures err { OnErr result (proc.new ≡ proc.old) }
{
    put_before(&mut proc.todo, stmts)?;
    proc.answers.clear();
    Ok(())
}

fn print(proc: &mut Proc, value: i64) -> Result<(), Memory>
    ensures ok { OnOk result (proc.new ≡ record (finished proc.old) { prints = proc.old.prints ++ value ∷ [] }) }
    ensures err { OnErr result (proc.new ≡ proc.old) }
{
    proc.prints.push(value)?;
    finish(proc);
    Ok(())
}

/// Does what the head statement does once its values are there.
fn do_effect(
    program: &Program,
    todo: Todo,
    effect: Effect,
    proc: &mut Proc,
    answer: &Answer,
) -> Result<(), Memory>
    requires { IsHead program.now proc.old todo }
    ensures ok { OnOk result
        (proc.new ≡ act_by_deed program.now answer.now todo (drop 1 proc.old.todo)
        (head_deed_of program.now todo proc.old effect) (record proc.old { answers = [] })) }
    ensures err { OnErr result (proc.new ≡ proc.old) }
{
    match effect {
        Effect::Branch(holds) => return go_on(proc, branch_in(kind_at(program, todo.stmt), holds)),
        Effect::Turn => return turn(proc, body_in(kind_at(program, todo.stmt))),
        Effect::Invoke(function, _) => {
            let values = argument_values(program, todo, proc)?;
            return invoke(program, todo, function, values, proc);
        }
        Effect::Print(value) => return print(proc, value),
        _ => {}
    }
    finish(proc);
    match effect {
        Effect::SetLocal(cell, value) => write_top(&mut proc.frames, cell, value),
        Effect::Clear(base, len) => clear_top(&mut proc.frames, base, len),
        Effect::Back(value) => return_from(program, &mut proc.frames, value),
        Effect::Receive(_, into) => write_top(&mut proc.frames, into, answer.value_given()),
        Effect::Finish => proc.status = Some(Status::Ended),
        _ => {}
    }
    Ok(())
}

/// The step of a statement that lacks a value, or traps.
fn hold(proc: &mut Proc, pause: Pause, answer: &Answer) -> Result<(), Memory>
    ensures ok { OnOk result (proc.new ≡ hold_at proc.old pause answer.now) }
    ensures err { OnErr result (proc.new ≡ proc.old) }
{
    match pause {
        Pause::Wants(_) => proc.answers.push(answer.value_given())?,
        Pause::Traps(trap) => proc.status = Some(Status::Trap(trap)),
    }
    Ok(())
}

/// What the head statement's step does, its cost aside.
fn act_on_head(
    program: &Program,
    todo: Todo,
    proc: &mut Proc,
    answer: &Answer,
) -> Result<(), Memory>
    requires { IsHead program.now proc.old todo }
    ensures ok { OnOk result
        (proc.new ≡ act_by_asked program.now answer.now todo (drop 1 proc.old.todo)
        (head_deed program.now todo proc.old) proc.old) }
    ensures err { OnErr result (proc.new ≡ proc.old) }
{
    match head_effect(program, todo, proc) {
        Ok(effect) => do_effect(program, todo, effect, proc, answer),
        Err(pause) => hold(proc, pause, answer),
    }
}

/// Counts a step and its cost.
pub(crate) fn charge(plan: &Plan, need: Need, proc: &mut Proc)
    requires paid { proc.old.spent + cost_of plan.now need ≤ proc.old.budget }
    requires steps { proc.old.steps ≤ proc.old.spent }
    ensures { proc.new ≡ charged plan.now need proc.old }
{
    let _budget = proc.budget;
    proc.spent += cost(plan, need) as u32;
    proc.steps += 1;
}

/// Marks the head statement, a block loop, as entered.
fn enter(todo: Todo, proc: &mut Proc)
    requires { 0 < length proc.old.todo }
    ensures { proc.new ≡ record proc.old { todo = record todo { entered = true } ∷ drop 1 proc.old.todo } }
{
    proc.todo.set_top(Todo {
        entered: true,
        ..todo
    });
}

/// Marks the head statement, a send, as offered, and drops its answers.
fn offer(todo: Todo, proc: &mut Proc)
    requires { 0 < length proc.old.todo }
    ensures { proc.new
        ≡ record proc.old { todo = record todo { offered = true } ∷ drop 1 proc.old.todo; answers = [] } }
{
    proc.todo.set_top(Todo {
        offered: true,
        ..todo
    });
    proc.answers.clear();
}

/// Takes the step of this need, which is the process's own.
fn step(
    program: &Program,
    plan: &Plan,
    todo: Todo,
    proc: &mut Proc,
    need: Need,
    answer: &Answer,
) -> Result<(), Memory>
    requires program { IsRunnable program.now }
    requires proc { IsRunning program.now proc.old }
    requires head { slice_get proc.old.todo 0 ≡ Some todo }
    requires need { need ≡ need_of program.now plan.now proc.old }
    ensures ok { OnOk result
        (proc.new ≡ act_by_need program.now plan.now answer.now todo (drop 1 proc.old.todo)
        (need_of program.now plan.now proc.old) proc.old) }
    ensures err { OnErr result (proc.new ≡ proc.old) }
{
    match need {
        Need::Stopped => Ok(()),
        Need::Budget => {
            proc.status = Some(Status::Budget);
            Ok(())
        }
        Need::Enter { .. } => {
            enter(todo, proc);
            charge(plan, need, proc);
            Ok(())
        }
        Need::Offer { .. } => {
            offer(todo, proc);
            charge(plan, need, proc);
            Ok(())
        }
        Need::Done { .. } => {
            finish(proc);
            charge(plan, need, proc);
            Ok(())
        }
        Need::Trap(trap) => {
            proc.status = Some(Status::Trap(trap));
            charge(plan, need, proc);
            Ok(())
        }
        _ => {
            act_on_head(program, todo, proc, answer)?;
            charge(plan, need, proc);
            Ok(())
        }
    }
}

/// The next step of a process, if there is one.
fn step_of_head(
    program: &Program,
    plan: &Plan,
    proc: &mut Proc,
    need: Need,
    answer: &Answer,
) -> Result<(), Memory>
    requires program { IsRunnable program.now }
    requires proc { IsRunning program.now proc.old }
    requires need { need ≡ need_of program.now plan.now proc.old }
    ensures ok { OnOk result (proc.new ≡ act program.now plan.now proc.old answer.now) }
    ensures err { OnErr result (proc.new ≡ proc.old) }
{
    match head(proc) {
        Some(todo) => step(program, plan, todo, proc, need, answer),
        None => Ok(()),
    }
}

/// Takes the next step of a process, of which it is known that it needs this. `Value` goes with a need for a
/// value, `Go` with the others. `Memory` is want of memory: the process is as before.
pub fn meet(
    program: &Program,
    plan: &Plan,
    proc: &mut Proc,
    need: Need,
    answer: &Answer,
) -> Result<(), Memory>
    requires program { IsRunnable program.now }
    requires proc { IsRunning program.now proc.old }
    requires need { need ≡ need_of program.now plan.now proc.old }
    ensures ok { OnOk result (proc.new ≡ act program.now plan.now proc.old answer.now) }
    ensures err { OnErr result (proc.new ≡ proc.old) }
    ensures kept { IsRunning program.now proc.new }
{
    step_of_head(program, plan, proc, need, answer)
}

/// Takes the next step of a process. `Value` goes with a need for a value, `Go` with the
/// others. `Memory` is want of memory: the process is as before.
pub fn feed(program: &Program, plan: &Plan, proc: &mut Proc, answer: &Answer) -> Result<(), Memory>
    requires program { IsRunnable program.now }
    requires plan { IsNumbered plan.now }
    requires proc { IsRunning program.now proc.old }
    ensures ok { OnOk result (proc.new ≡ act program.now plan.now proc.old answer.now) }
    ensures err { OnErr result (proc.new ≡ proc.old) }
    ensures kept { IsRunning program.now proc.new }
{
    let need = look(program, plan, proc);
    meet(program, plan, proc, need, answer)
}
