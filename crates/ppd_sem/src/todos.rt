ghost use Rattle.std.specs.Prelude.{◌≡◌, ◌<◌, ◌++◌, drop, length, reverse, IfOk, OnOk, OnErr};
ghost use Rattle.ppd_sem.specs.Process.{todos};

use crate::proc::Todo;
use crate::stack::Stack;
use ppd_ast::Memory;
use std::alloc::{AllocError, Global};

/// The statements as what is to do, the last one first.
fn listed(alloc: Global, stmts: &[u32]) -> Result<Vec<Todo>, AllocError>
    ensures { IfOk result (λ items. items.items ≡ todos (reverse stmts.now)) }
{
    stmts
        .iter()
        .rev()
        .map(|stmt| Todo {
            stmt: *stmt,
            entered: false,
            offered: false,
        })
        .collect(alloc)
}

/// The statements as what is to do, the first one at the top.
#[tactic(auto, using(crate::proofs::Stacked::stacked))]
pub(crate) fn stack_of(alloc: Global, stmts: &[u32]) -> Result<Stack<Todo>, Memory>
    ensures { IfOk result (λ todo. todo ≡ todos stmts.now) }
{
    Ok(Stack::from_vec(listed(alloc, stmts)?))
}

/// Puts the statements before all that is to do. `Memory` is want of memory: nothing changes.
#[tactic(auto, using(crate::proofs::Stacked::stacked))]
pub(crate) fn put_before(todo: &mut Stack<Todo>, stmts: &[u32]) -> Result<(), Memory>
    ensures ok { OnOk result (todo.new ≡ todos stmts.now ++ todo.old) }
    ensures err { OnErr result (todo.new ≡ todo.old) }
{
    todo.push_all(listed(todo.allocator(), stmts)?)
}

/// Puts the statements in the head's place. `Memory` is want of memory: nothing changes.
#[tactic(auto, using(crate::proofs::Stacked::stacked))]
pub(crate) fn put_in_place(todo: &mut Stack<Todo>, stmts: &[u32]) -> Result<(), Memory>
    requires { 0 < length todo.old }
    ensures ok { OnOk result (todo.new ≡ todos stmts.now ++ drop 1 todo.old) }
    ensures err { OnErr result (todo.new ≡ todo.old) }
{
    todo.replace_top(listed(todo.allocator(), stmts)?)
}
