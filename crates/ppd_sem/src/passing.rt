ghost use Rattle.std.specs.Prelude.{◌≡◌, slice_get, Some, IfOk, option_to_list};
ghost use Rattle.ppd_sem.specs.Passed.{arguments_at, arguments_by, deed_at, deed_if_there, deed_of_head, next_stmt_of, result_at, result_by};
ghost use Rattle.ppd_sem.specs.Process.{head_deed, top_frame};
ghost use Rattle.ppd_sem.specs.Runs.{IsHead, IsRunnable, IsRunning};

use crate::effect::Effect;
use crate::feeding::argument_values;
use crate::looking::{head, head_effect, top_cells};
use crate::proc::{Proc, Todo};
use ppd_ast::{Memory, Nums, Program};
use std::alloc::Global;

fn head_arguments(alloc: Global, program: &Program, todo: Todo, proc: &Proc) -> Result<Nums, Memory>
    requires { IsHead program.now proc.now todo }
    ensures { IfOk result (λ values. values ≡ arguments_by (head_deed program.now todo proc.now)) }
{
    match head_effect(program, todo, proc) {
        Ok(Effect::Invoke(..)) => argument_values(program, todo, proc),
        _ => Ok(Nums::new(alloc)),
    }
}

fn head_result(program: &Program, todo: Todo, proc: &Proc) -> Option<i64>
    requires { IsHead program.now proc.now todo }
    ensures { result ≡ result_by (head_deed program.now todo proc.now) }
{
    match head_effect(program, todo, proc) {
        Ok(Effect::Back(value)) => value,
        _ => None,
    }
}

fn effect_of_head(program: &Program, todo: Todo, proc: &Proc) -> Option<Effect>
    requires { IsHead program.now proc.now todo }
    ensures { deed_of_head program.now proc.now (Some todo) ≡ deed_if_there program.now proc.now (Some todo) result }
{
    match head_effect(program, todo, proc) {
        Ok(effect) => Some(effect),
        Err(_) => None,
    }
}

/// What the step that comes next does, its cost and a call's depth aside; None where the statement
/// still lacks a value or traps, and where none is to do.
pub fn next_effect(program: &Program, proc: &Proc) -> Option<Effect>
    requires program { IsRunnable program.now }
    requires proc { IsRunning program.now proc.now }
    ensures { deed_at program.now proc.now ≡ deed_if_there program.now proc.now (slice_get proc.now.todo 0) result }
{
    match head(proc) {
        Some(todo) => effect_of_head(program, todo, proc),
        None => None,
    }
}

/// The values with which the call that comes next is made, and none where no call is made next.
/// `Memory` is want of memory.
pub fn call_values(alloc: Global, program: &Program, proc: &Proc) -> Result<Nums, Memory>
    requires program { IsRunnable program.now }
    requires proc { IsRunning program.now proc.now }
    ensures { IfOk result (λ values. values ≡ arguments_at program.now proc.now) }
{
    match head(proc) {
        Some(todo) => head_arguments(alloc, program, todo, proc),
        None => Ok(Nums::new(alloc)),
    }
}

/// The value that the return that comes next gives back, if any.
pub fn returned_value(program: &Program, proc: &Proc) -> Option<i64>
    requires program { IsRunnable program.now }
    requires proc { IsRunning program.now proc.now }
    ensures { option_to_list result ≡ result_at program.now proc.now }
{
    match head(proc) {
        Some(todo) => head_result(program, todo, proc),
        None => None,
    }
}

/// The cells of the top frame of a process.
pub fn local_cells(proc: &Proc) -> &[i64]
    ensures { result.now ≡ (top_frame proc.now.frames).cells }
{
    top_cells(&proc.frames)
}

/// The statement that comes next, if any is still to do.
pub fn next_stmt(proc: &Proc) -> Option<u32>
    ensures { result ≡ next_stmt_of proc.now.todo }
{
    match proc.todo.top() {
        Some(todo) => Some(todo.stmt),
        None => None,
    }
}
